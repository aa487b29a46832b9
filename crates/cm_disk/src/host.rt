//! The files below one folder of the host.
ghost use Rattle.std.specs.Prelude.{◌≡◌, ◌+◌, ◌^◌, ◌≤◌, length, true, IfOk, IfSome};
ghost use Rattle.std.specs.Option.{option_copied};
ghost use Rattle.cm_disk.specs.Disk.{is_above};

use crate::host_listing::{joined, listed, next_of};
use crate::host_names::{name_of, parent_of, trimmed};
use cm_base::{Memory, Place};
use std::collections::BTreeSet;
use std::fs::{self, File, OpenOptions};
use std::io;
use std::os::unix::fs::FileExt;
use std::rt::Files;

// No file is longer.
const LONGEST: u64 = (1 << 40) + 131_072;

// So many files are kept open: a log, a manifest and a file take turns.
const MOST_OPEN: usize = 8;

// A file that is kept open.
#[derive(Drop)]
pub(crate) struct OpenPlace {
    place: Place,
    file: File,
    takes_writes: bool,
}

#[derive(Drop)]
pub(crate) struct Host<R: Files<File = File> + AllocGlobal + Clone + Drop> {
    rt: R,
    folder: String,
    // the files that were used last, the latest at the end, each place once
    open: Vec<OpenPlace>,
    // all places, once they were listed
    places: Option<BTreeSet<Place>>,
    // the folders, by their paths, in which nothing was made or removed since this run synced them
    settled: BTreeSet<String>,
    // the folders above the disk's own in which this run made one, until they are synced
    above: Vec<String>,
    // a sync failed: the system may have let go of what was written, so no later one is believed
    is_lost: bool,
}

fn is_missing(error: &io::Error) -> bool {
    error.kind() == io::ErrorKind::NotFound
}

impl<R: Files<File = File> + AllocGlobal + Clone + Drop> Host<R> {
    pub(crate) fn new(rt: R, folder: &str) -> Result<Host<R>, Memory> {
        let folder = String::from_str(rt.alloc(), trimmed(folder))?;
        let settled = BTreeSet::new(rt.alloc());
        let above = Vec::new(rt.alloc());
        let open = Vec::new(rt.alloc());
        Ok(Host {
            rt,
            folder,
            open,
            places: None,
            settled,
            above,
            is_lost: false,
        })
    }

    // Where a place stands on the host.
    fn path_of(&self, place: &Place) -> io::Result<String> {
        match name_of(place) {
            Some(name) => joined(&self.rt, self.folder.as_str(), name),
            None => Err(io::ErrorKind::InvalidFilename.into()),
        }
    }

    // Takes the file of a place out of those that are kept open.
    fn take_kept(&mut self, place: &Place) -> Option<OpenPlace> {
        let at = self.open.iter().position(|open| open.place == *place)?;
        Some(self.open.remove(at))
    }

    // Keeps a file open. The one that was not used for longest goes; without memory this one does.
    fn keep(&mut self, open: OpenPlace) {
        if self.open.len() >= MOST_OPEN {
            let _longest = self.open.remove(0);
        }
        let _kept = self.open.push(open);
    }

    // The file at a place, if one is there. It is kept no longer: `keep` it after its use.
    fn take_open(&mut self, place: &Place, takes_writes: bool) -> io::Result<Option<OpenPlace>> {
        if let Some(open) = self.take_kept(place)
            && (open.takes_writes || !takes_writes)
        {
            return Ok(Some(open));
        }
        let path = self.path_of(place)?;
        let file = match OpenOptions::new()
            .read(true)
            .write(takes_writes)
            .open(&self.rt, path.as_str())
        {
            Ok(file) => file,
            Err(e) if is_missing(&e) => return Ok(None),
            Err(e) => return Err(e),
        };
        let about = file.metadata()?;
        if !about.is_file() || about.len() > LONGEST {
            return Err(io::ErrorKind::Unsupported.into());
        }
        Ok(Some(OpenPlace {
            place: *place,
            file,
            takes_writes,
        }))
    }

    pub(crate) fn size(&mut self, place: &Place) -> io::Result<Option<u64>>
        ensures { IfOk result (λ size. IfSome size (λ size. size ≤ 2 ^ 40 + 131072)) }
    {
        let Some(open) = self.take_open(place, false)? else {
            return Ok(None);
        };
        let size = open.file.metadata()?.len();
        if size > LONGEST {
            return Err(io::ErrorKind::FileTooLarge.into());
        }
        self.keep(open);
        Ok(Some(size))
    }

    pub(crate) fn read_at(
        &mut self,
        place: &Place,
        offset: u64,
        buf: &mut [u8],
    ) -> io::Result<usize>
        ensures fits { IfOk result (λ count. count ≤ length buf.new) }
        ensures end { IfOk result (λ count. 2 ^ 40 + 131072 ≤ offset → count ≡ 0) }
    {
        let Some(open) = self.take_open(place, false)? else {
            return Ok(0);
        };
        if offset >= LONGEST {
            return Ok(0);
        }
        let count = read_from(&open.file, offset, buf)?;
        self.keep(open);
        Ok(count)
    }

    pub(crate) fn write_at(&mut self, place: &Place, offset: u64, bytes: &[u8]) -> io::Result<()> {
        let open = match self.take_open(place, true)? {
            Some(open) => open,
            None => self.make(place)?,
        };
        open.file.write_all_at(bytes, offset)?;
        self.keep(open);
        Ok(())
    }

    // Makes a file, and the folders above it where they are missing.
    fn make(&mut self, place: &Place) -> io::Result<OpenPlace> {
        let path = self.path_of(place)?;
        let folder = parent_of(path.as_str());
        self.make_folders(folder)?;
        self.settled.remove(folder);
        let file = OpenOptions::new()
            .read(true)
            .write(true)
            .create(true)
            .open(&self.rt, path.as_str())?;
        self.note_made(place);
        Ok(OpenPlace {
            place: *place,
            file,
            takes_writes: true,
        })
    }

    // A list that finds no memory is made again when it is asked for.
    fn note_made(&mut self, place: &Place) {
        if let Some(mut places) = self.places.take()
            && places.insert(*place).is_ok()
        {
            self.places = Some(places);
        }
    }

    fn make_folders(&mut self, folder: &str) -> io::Result<()> {
        if self.is_folder(folder) {
            return Ok(());
        }
        for end in 1..folder.len() {
            if let Some((above, rest)) = folder.split_at_checked(end)
                && rest.starts_with('/')
            {
                self.make_folder(above)?;
            }
        }
        self.make_folder(folder)
    }

    fn is_folder(&self, path: &str) -> bool {
        match fs::metadata(&self.rt, path) {
            Ok(about) => about.is_dir(),
            Err(_) => false,
        }
    }

    fn make_folder(&mut self, path: &str) -> io::Result<()> {
        if self.is_folder(path) {
            return Ok(());
        }
        let parent = parent_of(path);
        self.settled.remove(parent);
        if path.len() < self.folder.len() {
            self.above.push(String::from_str(self.rt.alloc(), parent)?)?;
        }
        fs::create_dir(&self.rt, path)
    }

    pub(crate) fn cut(&mut self, place: &Place, size: u64) -> io::Result<()> {
        let Some(open) = self.take_open(place, true)? else {
            return Err(io::ErrorKind::NotFound.into());
        };
        if open.file.metadata()?.len() < size {
            return Err(io::ErrorKind::InvalidInput.into());
        }
        open.file.set_len(size)?;
        self.keep(open);
        Ok(())
    }

    pub(crate) fn remove(&mut self, place: &Place) -> io::Result<()> {
        // A file that is kept open would still give what it held.
        let _closed = self.take_kept(place);
        let path = self.path_of(place)?;
        match fs::remove_file(&self.rt, path.as_str()) {
            Ok(()) => {}
            Err(e) if is_missing(&e) => return Ok(()),
            Err(e) => return Err(e),
        }
        self.settled.remove(parent_of(path.as_str()));
        if let Some(places) = &mut self.places {
            places.remove(place);
        }
        Ok(())
    }

    pub(crate) fn sync(&mut self, place: &Place) -> io::Result<()> {
        if self.is_lost {
            return Err(io::ErrorKind::Other.into());
        }
        let path = self.path_of(place)?;
        if let Some(open) = self.take_open(place, false)? {
            self.is_lost = true;
            open.file.sync_data()?;
            self.is_lost = false;
            self.keep(open);
        }
        self.sync_folders(path.as_str())
    }

    // The folders from that of a path up to the one that holds the disk's own, and those above that gained one.
    fn sync_folders(&mut self, path: &str) -> io::Result<()> {
        for end in (self.folder.len()..path.len()).rev() {
            if let Some((folder, rest)) = path.split_at_checked(end)
                && rest.starts_with('/')
            {
                self.sync_folder(folder)?;
            }
        }
        let own = self.folder.clone()?;
        self.sync_folder(own.as_str())?;
        self.sync_folder(parent_of(own.as_str()))?;
        let above = std::mem::replace(&mut self.above, Vec::new(self.rt.alloc()));
        let synced = self.sync_each(&above);
        if synced.is_err() {
            self.above = above;
        }
        synced
    }

    fn sync_each(&mut self, folders: &[String]) -> io::Result<()> {
        for folder in folders {
            self.sync_folder(folder.as_str())?;
        }
        Ok(())
    }

    // A folder that is absent is passed over: the one that holds it is synced too.
    fn sync_folder(&mut self, path: &str) -> io::Result<()> {
        if self.settled.contains(path) {
            return Ok(());
        }
        let folder = match fs::open(&self.rt, path) {
            Ok(folder) => folder,
            Err(e) if is_missing(&e) => return Ok(()),
            Err(e) => return Err(e),
        };
        self.is_lost = true;
        folder.sync_all()?;
        self.is_lost = false;
        // A note that finds no memory costs one more sync.
        if let Ok(path) = String::from_str(self.rt.alloc(), path) {
            let _noted = self.settled.insert(path);
        }
        Ok(())
    }

    pub(crate) fn next_place(&mut self, after: Option<&Place>) -> io::Result<Option<Place>>
        ensures { IfOk result (λ next. IfSome next (λ next. is_above (option_copied after.entry) next ≡ true)) }
    {
        let places = match self.places.take() {
            Some(places) => places,
            None => listed(&self.rt, self.folder.as_str())?,
        };
        let next = next_of(&places, after);
        self.places = Some(places);
        Ok(next)
    }
}

// Reads until the buffer is full or the file ends.
fn read_from(file: &File, offset: u64, buf: &mut [u8]) -> io::Result<usize>
    ensures { IfOk result (λ count. count ≤ length buf.new) }
{
    let mut count = 0;
    while count < buf.len() {
        let got = file.read_at(&mut buf[count..], offset.saturating_add(count as u64))?;
        if got == 0 {
            break;
        }
        count += got;
    }
    Ok(count)
}
