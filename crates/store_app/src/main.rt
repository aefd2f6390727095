//! Serves the requests of standard input by the entries of a file of SQLite, and writes the responses to standard output.
//! It answers requests for this machine's own names and for the hosts of the command line.
#![tactic(auto)]

mod goods;

use goods::Goods;
use http_server::Config;
use rows::{files, texts};
use sqlite::{Connection, FileStore, Unknown};
use sqlite_disk::Disk;
use std::hash::RandomState;
use std::process::ExitCode;
use std::{env, io};
use store::explain::ByField;
use store::hosts::local_hosts;
use store::opening::prepare;
use store::service::StoreService;
use store::stream::serve_stream;

/// Serves the requests of standard input by the entries of a store. Returns the status to exit with.
fn serve<D: Disk + Drop>(
    rt: &HostRuntime,
    mut conn: Connection<FileStore<D>>,
    hosts: Vec<String>,
) -> io::Result<u8> {
    if !texts::is_empty(&conn) && !texts::is_store(&conn) {
        return Ok(1);
    }
    if prepare(&mut conn).is_err() {
        return Ok(1);
    }
    // Under a limit, which no query reaches, no row is read before it is asked for. So a page of a list costs what it shows.
    conn.set_step_limit(Some(u64::MAX));
    let mut service: StoreService<FileStore<D>, Goods, ByField> = StoreService::new(
        rt.alloc(),
        conn,
        hosts,
    );
    let keys = RandomState::new(rt)?;
    let (mut reader, mut writer) = (rt.stdin(), io::writer(rt));
    serve_stream(
        rt.alloc(),
        keys,
        Config::default(),
        &mut service,
        &mut reader,
        &mut writer,
    )?;
    if service.into_connection().close().is_err() {
        return Ok(1);
    }
    Ok(0)
}

/// Serves the file of the first word of the command line, for the hosts that follow it. Returns the status to exit with.
fn run(rt: &HostRuntime) -> io::Result<u8> {
    let mut words = env::args(rt)?.skip(1);
    let Some(path) = words.next() else {
        eprintln!(rt; "usage: store_app FILE [HOST..]")?;
        return Ok(2);
    };
    let mut hosts = local_hosts(rt.alloc())?;
    for host in words {
        hosts.push(host)?;
    }
    match files::open(rt, path.as_str(), Unknown) {
        Ok(conn) => serve(rt, conn, hosts),
        Err(error) => {
            eprintln!(rt; "{path}: {error}")?;
            Ok(1)
        }
    }
}

fn main(rt: HostRuntime) -> ExitCode {
    match run(&rt) {
        Ok(status) => ExitCode::from(status),
        Err(_) => ExitCode::from(3),
    }
}
