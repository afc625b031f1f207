//! `garnetd`: a RESP2 server over a store in memory, whose old pages may lie in a file. `garnetd --help` tells its
//! command line.
#![tactic(auto)]

ghost use Rattle.std.specs.Prelude.{◌≡◌, ◌+◌, vec_len};
ghost use Rattle.engine.specs.declared.TheConstants.{BACKGROUND_PASSES};

use anyhow::Result;
use clap::error::ErrorKind;
use command_line::options_of;
use device::{Device, FileDevice, MemoryDevice};
use gates::Open;
use options::{DeviceKind, Options};
use server::{Endings, ServerFault, listen, opening_count, run_workers};
use std::fs::{File, Files};
use std::net::{Net, SocketAddr, TcpListener, TcpStream};
use std::process::ExitCode;
use std::rt::{Clock, Env};
use std::sync::Wait;
use std::thread::Threads;
use std::{env, io};

/// The exit status where the server stopped before its time.
const STOPPED: u8 = 1;
/// The exit status of a wrong command line.
const WRONG_ARGUMENT: u8 = 2;

fn main(rt: HostRuntime) -> Result<ExitCode> {
    let words = match words_of(&rt) {
        Ok(words) => words,
        Err(error) if error.kind() == io::ErrorKind::InvalidData => return no_text(&rt),
        Err(_) => return stopped(&rt, ServerFault::OutOfMemory),
    };
    let options = match options_of(rt.alloc(), words.as_slice()) {
        Ok(options) => options,
        Err(error) if error.kind() == ErrorKind::OutOfMemory => {
            return stopped(&rt, ServerFault::OutOfMemory);
        }
        Err(error) => {
            error.print(&rt)?;
            return Ok(ExitCode::from(error.exit_code() as u8));
        }
    };
    match serve(&rt, &options) {
        Ok(()) => Ok(ExitCode::SUCCESS),
        Err(fault) => stopped(&rt, fault),
    }
}

/// The words of the command line. One that is no text is invalid data; else an error says that there is no memory for them.
fn words_of<R: Env + AllocGlobal>(rt: &R) -> io::Result<Vec<String>> {
    Ok(env::args(rt)?.collect(rt.alloc())?)
}

/// Tells on standard error that an argument is no UTF-8 text, which is a wrong argument as any other.
fn no_text(rt: &impl Eprint) -> Result<ExitCode> {
    eprintln!(rt; "garnetd: an argument is no UTF-8 text")?;
    Ok(ExitCode::from(WRONG_ARGUMENT))
}

/// Listens, opens the device, says where it listens, and serves until the last connection has ended.
fn serve<R>(rt: &R, options: &Options) -> Result<(), ServerFault>
where
    R: AllocGlobal + Print + Clock + Threads + Wait + Sync,
    R: Net<Listener = TcpListener, Stream = TcpStream>,
    R: Files<File = File>,
{
    let listener = listen(rt, options)?;
    let address = listener
        .local_addr()
        .map_err(|_| ServerFault::CannotListen)?;
    let count = opening_count(options);
    match &options.device {
        DeviceKind::Memory => {
            let openings = MemoryDevice::openings(rt.alloc(), count)?;
            serve_on(rt, listener, address, options, openings)
        }
        DeviceKind::File(path) => {
            let openings = FileDevice::openings(rt, rt.alloc(), path.as_str(), count)?;
            serve_on(rt, listener, address, options, openings)
        }
    }
}

/// Says that it listens at this address, and serves over the device of these openings until the last connection has ended.
fn serve_on<R, D>(
    rt: &R,
    listener: TcpListener,
    address: SocketAddr,
    options: &Options,
    openings: Vec<D>,
) -> Result<(), ServerFault>
where
    R: AllocGlobal + Print + Clock + Threads + Wait + Sync,
    D: Device + Send + Sync,
    D::Receipt: Send + Sync,
    requires openings { vec_len openings ≡ options.now.workers + BACKGROUND_PASSES }
{
    // Nobody has to read where the server listens.
    let _ = println!(rt; "listening on {address}");
    let endings = Endings::new(rt.alloc())?;
    run_workers(rt, listener, options, openings, &Open, &endings)
}

/// Tells on standard error why the server stopped.
fn stopped(rt: &impl Eprint, fault: ServerFault) -> Result<ExitCode> {
    eprintln!(rt; "{fault}")?;
    Ok(ExitCode::from(STOPPED))
}

#[cfg(test)]
mod tests {
    use super::*;
    use std::alloc::Global;
    use std::test::Fail;

    /// What a server is told to do that has this port, and a device of which no file can be made.
    fn options_at(alloc: Global, port: u16) -> Option<Options> {
        let port = format!(in alloc; "--port={port}").ok()?;
        let device = "--device=no/such/folder/pages";
        let words = ["garnetd", port.as_str(), "--accept=1", device];
        options_of(alloc, words.as_slice()).ok()
    }

    /// Why that server stops.
    fn fault_at<R>(rt: &R, port: u16) -> Option<ServerFault>
    where
        R: AllocGlobal + Print + Clock + Threads + Wait + Sync,
        R: Net<Listener = TcpListener, Stream = TcpStream>,
        R: Files<File = File>,
    {
        serve(rt, &options_at(rt.alloc(), port)?).err()
    }

    /// Why it stops where another listens on its port.
    fn fault_beside_another<R>(rt: &R) -> Option<ServerFault>
    where
        R: AllocGlobal + Print + Clock + Threads + Wait + Sync,
        R: Net<Listener = TcpListener, Stream = TcpStream>,
        R: Files<File = File>,
    {
        let other = listen(rt, &options_at(rt.alloc(), 0)?).ok()?;
        fault_at(rt, other.local_addr().ok()?.port())
    }

    /// A device that cannot be opened is told, but after a port that cannot be listened on.
    #[test]
    fn the_port_comes_before_the_device(rt: HostRuntime) -> Result<(), Fail> {
        assert!(rt; fault_at(&rt, 0) == Some(ServerFault::CannotOpenDevice));
        assert!(rt; fault_beside_another(&rt) == Some(ServerFault::CannotListen));
        Ok(())
    }
}
