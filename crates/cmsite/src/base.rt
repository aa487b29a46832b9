//! The base folder, which one process of this program has at a time.
use std::fs::{self, File};
use std::rt::{Clock, Files};
use std::time::Duration;
use std::{io, thread};

// A base folder that another process holds is tried again for five seconds.
const TRIES: u32 = 101;
// Between two tries, in milliseconds.
const PAUSE: u64 = 50;

/// How this run may use the files below the base folder.
#[derive(Clone, Copy)]
pub(crate) enum Access {
    /// No other process of this program has the folder.
    Held,
    /// There is no such folder: nothing is read below it, and nothing is written.
    Absent,
    /// The folder can't be had: nothing is read below it, and nothing is written.
    Refused,
}

/// The base folder, for as long as this value lives.
#[derive(Drop)]
pub(crate) enum Base {
    /// No other process of this program has the folder while this value lives: an exclusive advisory lock is held on it.
    Held { _folder: File },
    /// There is no such folder.
    Absent,
    /// Another process has held it for five seconds, or it can't be opened, made or locked.
    Refused,
}

impl Base {
    /// Takes the base folder for this process alone. A folder that isn't there is made where `makes` says so, durably, with
    /// those above it.
    pub(crate) fn take<R: Files<File = File> + Clock>(rt: &R, path: &str, makes: bool) -> Base {
        let made = if makes { make(rt, path) } else { Ok(()) };
        if made.is_err() {
            return Base::Refused;
        }
        match File::open(rt, path) {
            Ok(folder) => held(rt, folder),
            Err(error) if error.kind() == io::ErrorKind::NotFound => Base::Absent,
            Err(_) => Base::Refused,
        }
    }

    pub(crate) fn access(&self) -> Access {
        match self {
            Base::Held { .. } => Access::Held,
            Base::Absent => Access::Absent,
            Base::Refused => Access::Refused,
        }
    }
}

// The folder once it is locked. A file in its place is not locked.
fn held<R: Clock>(rt: &R, folder: File) -> Base {
    let is_folder = match folder.metadata() {
        Ok(about) => about.is_dir(),
        Err(_) => false,
    };
    if !is_folder {
        return Base::Refused;
    }
    for _ in 0..TRIES {
        match folder.try_lock() {
            Ok(()) => return Base::Held { _folder: folder },
            Err(fs::TryLockError::WouldBlock) => thread::sleep(rt, Duration::from_millis(PAUSE)),
            Err(_) => return Base::Refused,
        }
    }
    Base::Refused
}

// Makes the folders of a path that are missing, from the first one on.
fn make<R: Files<File = File>>(rt: &R, path: &str) -> io::Result<()> {
    for end in 1..path.len() {
        if let Some((above, rest)) = path.split_at_checked(end)
            && rest.starts_with('/')
            && !above.ends_with('/')
        {
            make_one(rt, above)?;
        }
    }
    make_one(rt, path)
}

// Makes one folder where it is missing, and the name of it durable. Two processes may do so at once.
fn make_one<R: Files<File = File>>(rt: &R, path: &str) -> io::Result<()> {
    match fs::create_dir(rt, path) {
        Ok(()) => File::open(rt, above(path))?.sync_all(),
        Err(error) if error.kind() == io::ErrorKind::AlreadyExists => Ok(()),
        Err(error) => match fs::metadata(rt, path) {
            Ok(about) if about.is_dir() => Ok(()),
            _ => Err(error),
        },
    }
}

// The folder that holds the name at the end of a path.
fn above(path: &str) -> &str {
    match path.trim_end_matches('/').rsplit_once('/') {
        Some(("", _)) => "/",
        Some((above, _)) => above,
        None => ".",
    }
}
