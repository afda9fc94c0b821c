//! The word of a mark, a seat at it, and the rule that its steps keep.

ghost use Rattle.std.specs.Prelude.{◌≡◌, true, IfOk, Contains};
ghost use Rattle.std.specs.Arc.{arc_value};
ghost use Rattle.ftp_transfer.specs.Mark.{onlooker, owner, saw};

use atomic_table::{Play, Seat, Split, Table, TableRule};
use std::alloc::{AllocError, Global};
use std::collections::LinkedList;
use std::sync::Arc;

/// The word as long as the transfer isn't left.
const LIVE: u64 = 0;

/// The word once the transfer was left.
const LEFT: u64 = 1;

/// What a seat knows: whether it is the transfer's, whether it stored the mark, how many loads of all seats had found
/// the transfer live by then, and what its own loads found, the latest first. No value of it is made.
pub(crate) struct View {
    pub owns: bool,
    pub stored: bool,
    pub live_loads: u64,
    pub seen: LinkedList<bool>,
}

/// The rule of the word.
pub(crate) struct MarkRule;

impl TableRule<(), View, ()> for MarkRule {
    ghost use Rattle.ftp_transfer.specs.Mark.{IsMark, owner};

    ghost holds = { λ _. IsMark };

    ghost first = { λ _. owner };
}

struct Onlooker;

impl Split<View> for Onlooker {
    ghost use Rattle.ftp_transfer.specs.Mark.{onlooker};

    ghost left = { λ v. v };

    ghost right = { λ _. onlooker };
}

struct Load;

impl Play<(), View> for Load {
    ghost use Rattle.ftp_transfer.specs.Mark.{Loads};

    ghost then = { Loads };
}

struct Store;

impl Play<(), View> for Store {
    ghost use Rattle.ftp_transfer.specs.Mark.{Stores};

    ghost then = { Stores };
}

/// A seat at the word, which all seats of one mark share.
#[derive(Drop)]
pub(crate) struct Place {
    pub word: Arc<Table<(), View, (), MarkRule, Global>, Global>,
    pub seat: Seat<(), View>,
    ghost one_word: { (arc_value word).shared.table_id.words ≡ 1 },
    ghost same_word: { seat.table_id ≡ (arc_value word).shared.table_id },
}

impl Place {
    /// The transfer's place at a new word.
    pub fn new(alloc: Global) -> Result<Place, AllocError>
        ensures { IfOk result (λ place. place.seat.me.0 ≡ owner) }
    {
        let (table, seat) = Table::of_words(alloc, &[LIVE], &())?;
        let word = Arc::new(alloc, table)?;
        Ok(Place { word, seat })
    }

    /// The session's place at the same word.
    pub fn beside(&mut self) -> Result<Place, AllocError>
        ensures same { self.new.seat.table_id ≡ self.old.seat.table_id }
        ensures kept { self.new.seat.me.0 ≡ self.old.seat.me.0 }
        ensures beside { IfOk result (λ place. place.seat.table_id ≡ self.old.seat.table_id) }
        ensures fresh { IfOk result (λ place. place.seat.me.0 ≡ onlooker) }
    {
        let word = Arc::try_clone(&self.word)?;
        let seat = word.shared.split_seat::<Onlooker>(&mut self.seat);
        Ok(Place { word, seat })
    }

    /// One load: whether the transfer was left.
    pub fn load(&mut self) -> bool
        ensures same { self.new.seat.table_id ≡ self.old.seat.table_id }
        ensures loaded { self.new.seat.me.0 ≡ saw result self.old.seat.me.0 }
        ensures stored { self.old.seat.me.0.owns ≡ true → result ≡ self.old.seat.me.0.stored }
        ensures stays { Contains self.old.seat.me.0.seen true → result ≡ true }
    {
        let word = &self.word;
        word.shared.load::<Load>(&mut self.seat, 0) == LEFT
    }

    /// One store: the transfer is left.
    pub fn store(&mut self)
        requires { self.old.seat.me.0.owns ≡ true }
        ensures same { self.new.seat.table_id ≡ self.old.seat.table_id }
        ensures owns { self.new.seat.me.0.owns ≡ true }
        ensures stored { self.new.seat.me.0.stored ≡ true }
        ensures seen { self.new.seat.me.0.seen ≡ self.old.seat.me.0.seen }
    {
        let word = &self.word;
        word.shared.store::<Store>(&mut self.seat, 0, LEFT);
    }
}
