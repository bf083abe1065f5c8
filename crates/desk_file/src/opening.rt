//! Opening and closing a store: one in memory, or that of a file.
ghost use Rattle.std.specs.Prelude.{◌≡◌, ◌↔◌, false, true, is_ok, IsTrue, IfErr, ⊤};
ghost use Rattle.desk_file.specs.Working.{in_memory, IsOutOfMemory};

use crate::new_file::make_missing;
use crate::timing::OpeningProgress;
use sql_queries::{open_file, open_in_memory};
use sqlite::{Alter, Connection, Error, ErrorCode, FileFrom, FileStore, MemStore, Start};
use sqlite_disk::Disk;
use sqlite_trees::store::Store;
use std::alloc::{AllocError, Global};
use std::fs;

/// Whether the name of a file means a new store in memory.
pub fn is_in_memory(file: &str) -> bool
    ensures { IsTrue result ↔ (file.now ≡ in_memory) }
{
    file == ":memory:"
}

/// A store that is closed after its last use.
pub trait ClosableStore: Alter + Drop {
    ghost use Rattle.std.specs.Prelude.{Bool};

    /// What is known of a closing: of the store, and of whether it could be closed.
    ghost closes: { Self → Bool → Type 0 };

    /// Closes it, and drops it. Returns whether it could be closed.
    fn close_store(self) -> bool
        ensures { closes self result };
}

/// A store in memory can always be closed.
impl ClosableStore for MemStore {
    ghost closes = { λ _ is_closed. is_closed ≡ true };

    fn close_store(self) -> bool {
        true
    }
}

/// What the log of a file holds is copied into it, so that the file alone holds what was committed.
impl<D: Disk + Drop> ClosableStore for FileStore<D> {
    ghost closes = { λ _ _. ⊤ };

    fn close_store(self) -> bool {
        let mut store = self;
        store.rollback();
        let copying = store.checkpoint();
        drop(store.close());
        is_done(copying)
    }
}

/// Whether a call was done.
fn is_done<E: Copy>(outcome: Result<(), E>) -> bool
    ensures { result ≡ is_ok outcome }
{
    outcome.is_ok()
}

/// Opens one store by the name of a file: who takes it by value can open one at most.
///
/// It may say which store it gives by a name, or why it gives none. Who is generic over it can't know what it says, and so has what it says only
/// of a store that it has opened. What the system gives by a name is not known, so the one that opens files says nothing.
pub trait StoreOpener<T: Alter + Drop>: Drop {
    ghost use Rattle.std.specs.Prelude.{List, ℕ, IfOk};
    ghost use Rattle.desk_file.specs.Working.{IsJustOpened, Opens};

    /// What is known of the opening by a name: of the store, or of why it doesn't open.
    ghost opens: { Self → List ℕ → Opens T };

    /// Opens the store of this name, in no transaction. The error is that of a store that doesn't open.
    fn open(self, file: &str) -> Result<Connection<T>, Error>
        ensures just { IfOk result (IsJustOpened T.Store) }
        ensures opens { opens self file.now result };
}

/// Opens a new store in memory, whatever its name.
#[derive(Drop)]
pub struct InMemory {
    /// From where it takes its memory.
    pub alloc: Global,
}

impl StoreOpener<MemStore> for InMemory {
    ghost opens = { λ _ _ opened. IfErr opened IsOutOfMemory };

    fn open(self, _file: &str) -> Result<Connection<MemStore>, Error> {
        match open_in_memory(self.alloc) {
            Ok(connection) => Ok(connection),
            Err(refused) => Err(memory_error(refused)),
        }
    }
}

/// The error of a store in memory that doesn't open: memory was refused.
fn memory_error(_refused: AllocError) -> Error
    ensures { IsOutOfMemory result }
{
    Error::SqliteFailure(ErrorCode::OutOfMemory)
}

/// Opens a file, which is made where it isn't there. Where the opening takes long a terminal shows its progress, and where a file is made that
/// isn't wanted new, that it is made.
#[derive(Drop)]
pub struct OnDisk<'a, S: Start> {
    rt: &'a HostRuntime,
    is_wanted_new: bool,
    start: S,
    ghost torn: { S.is_mixing ≡ false },
}

impl<'a, S: Start> OnDisk<'a, S> {
    /// One that opens a file, which is wanted new or isn't.
    ///
    /// `start` represents what the file holds before it is opened, whatever that is. It may not suppose that a write which a stop ends leaves each
    /// byte as it was or as it was to be: such a write may leave any bytes in its range. So each commit syncs twice.
    pub fn new(rt: &'a HostRuntime, is_wanted_new: bool, start: S) -> OnDisk<'a, S>
        requires torn { S.is_mixing ≡ false }
    {
        OnDisk {
            rt,
            is_wanted_new,
            start,
        }
    }
}

impl<S: Start> StoreOpener<FileStore<FileFrom<S>>> for OnDisk<'_, S> {
    ghost opens = { λ _ _ _. ⊤ };

    fn open(self, file: &str) -> Result<Connection<FileStore<FileFrom<S>>>, Error> {
        let rt = self.rt;
        let is_slip = may_be_slip(rt, file, self.is_wanted_new);
        make_missing(rt, file)?;
        let progress = OpeningProgress::begin(rt, file);
        let connection = open_file(rt, file, self.start)?;
        progress.note_opened(file, is_slip);
        Ok(connection)
    }
}

/// Whether nothing has the name of a file that isn't wanted new, as where there is a slip in the name.
fn may_be_slip(rt: &HostRuntime, file: &str, is_wanted_new: bool) -> bool {
    !is_wanted_new && matches!(fs::exists(rt, file), Ok(false))
}
