// Receipts that come too late.

use super::*;

// Page 0 is written once more: its receipt is given back, and nothing changes.
fn refuses_another_receipt(shelf: &mut Shelf, rt: &impl Abort, page: &Page) {
    let sealed = shelf.stripe.sealed();
    let oldest = shelf.stripe.oldest();
    refuses_receipt(rt, shelf, page);
    assert!(rt; shelf.stripe.sealed() == sealed && shelf.stripe.oldest() == oldest);
    assert!(rt; shelf.stripe.receipt(0).is_some());
}

// A second receipt is refused for a page that has one and its frame, and for one that has left its frame.
fn refuses_both(shelf: &mut Shelf, alloc: Global, rt: &impl Abort) {
    fills(rt, shelf, 630);
    let page = copy_of_page_0(rt, alloc, &shelf.stripe);
    assert!(rt; shelf.flush(rt));
    refuses_another_receipt(shelf, rt, &page);
    assert!(rt; shelf.stripe.unreleased() == 2);
    drops(shelf, rt);
    refuses_another_receipt(shelf, rt, &page);
    assert!(rt; shelf.stripe.unreleased() == 3);
    drop(page);
}

#[test]
fn a_page_that_has_a_receipt_keeps_it(rt: HostRuntime) {
    let mut shelf = new_shelf(&rt, rt.alloc(), 4096, 64);
    refuses_both(&mut shelf, rt.alloc(), &rt);
    drop(shelf);
}
