//! What a daemon has before it listens: its address, its folder with what stands there, and the locks on it.

use crate::answers::{answer, refused};
use crate::aside::put_aside;
use crate::asked::Asked;
use crate::begin::{Begin, line, look};
use crate::kept_conf::KeptConf;
use crate::own::OwnSetting;
use dl_real::{Directory, Taken};
use dl_real_daemon::{
    BIND_ADDRESS, BindFault, FolderLock, LockFault, USERS_ADDRESS, bind_address, lock_folder,
    users_address,
};
use dl_startup::Status;
use dl_words::{DaemonWords, ParseFault};
use std::net::IpAddr;
use std::process::ExitCode;

/// The address to listen on that a word of the environment gave, or the status of a daemon that has none.
fn address_of(
    rt: &HostRuntime,
    word: &str,
    given: Result<IpAddr, BindFault>,
) -> Result<IpAddr, ExitCode> {
    match given {
        Ok(address) => Ok(address),
        Err(BindFault::NoAddress) => {
            let status = refused(rt, "dlt_daemon: net fault", Status::NetFault);
            let _ = eprintln!(rt; "dlt_daemon: {word}: no address");
            Err(status)
        }
        Err(BindFault::OutOfMemory) => Err(answer(rt, ParseFault::OutOfMemory)),
    }
}

/// Locks a folder, or the status of a daemon that may not run there.
fn lock(rt: &HostRuntime, name: &str) -> Result<FolderLock, ExitCode> {
    match lock_folder(rt, name) {
        Ok(lock) => Ok(lock),
        Err(LockFault::Taken) => {
            let _ = eprintln!(rt; "dlt_daemon: {name}: another daemon runs in this folder");
            Err(ExitCode::from(Status::FolderFault.number()))
        }
        Err(LockFault::Refused(why)) => {
            let _ = eprintln!(rt; "dlt_daemon: {name}: {why}");
            Err(ExitCode::from(Status::FolderFault.number()))
        }
    }
}

/// The locks of the folder, and of the directory of the trace files where that stands elsewhere.
fn lock_all(rt: &HostRuntime, begin: &Begin) -> Result<(FolderLock, Option<FolderLock>), ExitCode> {
    let folder = lock(rt, ".")?;
    let directory = begin.directory.as_str();
    if !directory.starts_with('/') {
        return Ok((folder, None));
    }
    match lock_folder(rt, directory) {
        Ok(lock) => Ok((folder, Some(lock))),
        Err(LockFault::Taken) => Err(refused(
            rt,
            "dlt_daemon: another daemon writes these trace files",
            Status::FolderFault,
        )),
        // It isn't there yet, or is none: that shows once it is written.
        Err(LockFault::Refused(_)) => Ok((folder, None)),
    }
}

/// What a daemon has before it listens.
#[derive(Drop)]
pub struct Prepared {
    /// The address to listen on.
    pub address: IpAddr,
    /// The same for external applications.
    pub users: IpAddr,
    /// The folder, which is locked.
    pub folder: KeptConf<Directory<HostRuntime>>,
    /// How often one of its trace files was taken away.
    pub taken: Taken,
    /// The line that is said once the ports are open, where there is memory for it.
    pub begins: Option<String>,
    /// What the daemon logs with as a program of its own, where it does.
    pub own: Option<OwnSetting>,
    /// The locks, which are held as long as this stands.
    pub locks: (FolderLock, Option<FolderLock>),
}

/// The status of a daemon whose configuration is refused.
const CONF_REFUSED: u8 = 3;

/// What the daemon logs with as a program of its own, where it does; or the status of one whose configuration asks for no level.
fn own_of(
    rt: &HostRuntime,
    begin: &Begin,
    said: &DaemonWords,
    users: IpAddr,
) -> Result<Option<OwnSetting>, ExitCode> {
    match (begin.own, begin.ecu) {
        (Ok(Some(level)), Some(ecu)) => Ok(Some(OwnSetting {
            level,
            ecu,
            address: users,
            port: said.users,
        })),
        (Ok(_), _) => Ok(None),
        (Err(number), _) => {
            let _ = eprintln!(rt;
                "dlt_daemon: conf line {number}: DaemonLogLevel is no level from 0 to 6"
            );
            Err(ExitCode::from(CONF_REFUSED))
        }
    }
}

/// Looks at the address, the configuration and the folder; or gives the status of a daemon that may not run there.
pub fn prepare(rt: &HostRuntime, asked: &Asked, said: &DaemonWords) -> Result<Prepared, ExitCode> {
    let address = address_of(rt, BIND_ADDRESS, bind_address(rt))?;
    let users = address_of(rt, USERS_ADDRESS, users_address(rt))?;
    let files = Directory::of_daemon(*rt, "dlt_daemon");
    let taken = files.taken();
    let Ok(name) = String::from_str(rt.alloc(), said.conf) else {
        return Err(answer(rt, ParseFault::OutOfMemory));
    };
    let mut folder = KeptConf::over(rt.alloc(), files, name);
    let begin = look(rt.alloc(), &mut folder, said.conf);
    if asked.names_conf && !begin.has_conf {
        let name = said.conf;
        let _ = eprintln!(rt; "dlt_daemon: {name}: not found");
        return Err(ExitCode::from(CONF_REFUSED));
    }
    let own = own_of(rt, &begin, said, users)?;
    let locks = lock_all(rt, &begin)?;
    put_aside(rt, &mut folder);
    Ok(Prepared {
        address,
        users,
        folder,
        taken,
        begins: line(rt.alloc(), &begin, said, address, users),
        own,
        locks,
    })
}
