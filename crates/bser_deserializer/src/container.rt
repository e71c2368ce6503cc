//! Opening and closing containers.
ghost use Rattle.std.specs.Prelude.{◌≡◌, ◌+◌, true, false, IfOk, OnOk, OnErr};
ghost use Rattle.bser_format.specs.Expected.{row_due};
ghost use Rattle.bser_deserializer.specs.Access.{after_closing};
ghost use Rattle.bser_deserializer.specs.Calls.{Keeps, ItemsOpened, ItemsRefused, ItemsRefusedBy, PairsOpened, PairsRefused, ItemsClosed, KeysGivenBack};
ghost use Rattle.bser_deserializer.specs.Kept.{kept_keys};
ghost use Rattle.bser_deserializer.specs.Reading.{bare, owned};
ghost use Rattle.bser_deserializer.specs.State.{refused, inside, inside_template};
ghost use Rattle.bser_deserializer.specs.View.{IsBefore};

use crate::cursor::Cursor;
use crate::deserializer::{Deserializer, Due};
pub use crate::frames::{MapHead, SeqHead};
use crate::note::Wanted;
use crate::template::take_keys_and_rows;
use bser_bunser::refusal::Answer;
use bser_format::errors::{Error, Kind};
use bser_format::header::{BSER_ARRAY, BSER_OBJECT, BSER_TEMPLATE};
use bser_source::read::DeRead;
use bser_source::reference::Lending;
use std::mem;

/// Opens and closes containers by their heads, for the crates above; users do not call it.
pub trait Containers {
    /// Opens the array or template that is expected.
    fn open_items(&mut self) -> Answer<SeqHead>;

    /// Opens the object or the row that is expected.
    fn open_pairs(&mut self) -> Answer<MapHead>;

    /// Closes an array, and gives the keys outside a template back.
    fn close_items(&mut self, head: SeqHead);

    /// Closes an object or a row.
    fn close_pairs(&mut self, head: MapHead);
}

impl<R: DeRead> Containers for Deserializer<R> {
    fn open_items(&mut self) -> Answer<SeqHead>
        ensures found { IfOk result (ItemsOpened self.old self.new) }
        ensures kept { OnOk result (Keeps self.old self.new) }
        ensures refused { OnErr result (ItemsRefused self.old self.new) }
    {
        match self.value_tag()? {
            BSER_ARRAY => self.open_array(),
            BSER_TEMPLATE => self.open_template(),
            tag => Err(self.refuse_tag(Wanted::Array, tag)),
        }
    }

    #[inline(always)]
    fn open_pairs(&mut self) -> Answer<MapHead>
        ensures found { IfOk result (PairsOpened self.old self.new) }
        ensures first { IfOk result (λ h. h.row ≡ true → h.at ≡ 0) }
        ensures kept { OnOk result (Keeps self.old self.new) }
        ensures refused { OnErr result (PairsRefused self.old self.new) }
    {
        if self.due == Due::Row && !self.is_failed() {
            return Ok(self.open_row());
        }
        match self.value_tag()? {
            BSER_OBJECT => self.open_object(),
            tag => Err(self.refuse_tag(Wanted::Object, tag)),
        }
    }

    #[inline(always)]
    fn close_items(&mut self, head: SeqHead)
        ensures keys { KeysGivenBack head self.old self.new }
        ensures state { ItemsClosed head self.old self.new }
        ensures kept { Keeps self.old self.new }
    {
        self.levels = head.levels;
        self.opened = head.opened;
        self.due = Due::Nothing;
        if head.rows {
            if let Some(keys) = self.outer.pop() {
                self.keys = keys;
            }
        }
    }

    #[inline(always)]
    fn close_pairs(&mut self, head: MapHead)
        ensures { self.new.state ≡ after_closing head.levels head.opened self.old.state }
    {
        self.levels = head.levels;
        self.opened = head.opened;
        self.due = Due::Nothing;
        // the keys of a row are those of its template, which stays open
    }
}

impl<R: DeRead> Deserializer<R> {
    /// How many levels are left inside a container of this kind.
    #[inline(always)]
    fn levels_inside(&mut self, kind: Kind) -> Answer<usize>
        ensures ok { IfOk result (λ n. self.old.state.levels ≡ n + 1) }
        ensures same { OnOk result (self.new.state ≡ self.old.state) }
        ensures kept { OnOk result (Keeps self.old self.new) }
        ensures none { OnErr result (self.old.state.levels ≡ 0) }
        ensures reason { OnErr result (self.new.refusal ≡ Error.DeRecursionLimitExceeded kind) }
        ensures state { OnErr result (self.new.state ≡ refused self.old.state) }
    {
        match self.levels.checked_sub(1) {
            Some(levels) => Ok(levels),
            None => Err(self.refuse(Error::DeRecursionLimitExceeded { kind })),
        }
    }

    /// Goes into a container, with so many levels inside.
    #[inline(always)]
    fn enter(&mut self, levels: usize)
        ensures inside { self.new.state ≡ inside levels self.old.state }
        ensures kept { Keeps self.old self.new }
    {
        self.due = Due::Nothing;
        self.levels = levels;
        self.opened = self.opened.saturating_add(1);
    }

    /// Goes into a template with these keys, with so many levels inside.
    fn enter_template(&mut self, keys: Vec<<R::Lent as Lending>::Kept>, levels: usize) -> Answer<()>
        ensures ok { OnOk result (self.new.state
            ≡ inside_template (kept_keys R.Lent.Lending keys) levels self.old.state) }
        ensures kept { OnOk result (Keeps self.old self.new) }
        ensures reason { OnErr result (self.new.refusal ≡ Error.OutOfMemory) }
        ensures source { OnErr result (self.new.state.source ≡ (refused self.old.state).source) }
    {
        let outside = mem::replace(&mut self.keys, keys);
        if self.outer.push(outside).is_err() {
            return Err(self.refuse(Error::OutOfMemory));
        }
        self.enter(levels);
        Ok(())
    }

    /// Opens the row that is expected.
    #[inline(always)]
    fn open_row(&mut self) -> MapHead
        requires due { self.old.state.due ≡ row_due self.old.state.keys }
        requires working { self.old.state.source.failed ≡ false }
        ensures opened { PairsOpened self.old self.new result }
        ensures kept { Keeps self.old self.new }
        ensures first { result.at ≡ 0 }
    {
        let head = MapHead {
            at: 0,
            row: true,
            levels: self.levels,
            opened: self.opened,
        };
        self.enter(self.levels);
        head
    }

    /// Opens the array whose tag is next.
    #[inline(always)]
    fn open_array(&mut self) -> Answer<SeqHead>
        requires { IsBefore 0x00 self.old.state }
        ensures found { IfOk result (ItemsOpened self.old self.new) }
        ensures kept { OnOk result (Keeps self.old self.new) }
        ensures refused { OnErr result (ItemsRefusedBy bare self.old self.new) }
    {
        let inside = self.levels_inside(Kind::Array)?;
        self.bunser.consume(1);
        let remaining = self.bunser.count()?;
        let head = SeqHead {
            remaining,
            rows: false,
            levels: self.levels,
            opened: self.opened,
        };
        self.enter(inside);
        Ok(head)
    }

    /// Opens the template whose tag is next.
    #[inline(never)]
    fn open_template(&mut self) -> Answer<SeqHead>
        requires { IsBefore 0x0b self.old.state }
        ensures found { IfOk result (ItemsOpened self.old self.new) }
        ensures kept { OnOk result (Keeps self.old self.new) }
        ensures refused { OnErr result (ItemsRefusedBy owned self.old self.new) }
    {
        let inside = self.levels_inside(Kind::Template)?;
        self.bunser.consume(1);
        self.bunser.fill(1)?;
        let byte = self.bunser.buffered()[0];
        if byte != BSER_ARRAY {
            return Err(self.refuse(Error::DeInvalidStartByte {
                kind: Kind::TemplateKeys,
                byte,
            }));
        }
        if inside == 0 {
            return Err(self.refuse(Error::DeRecursionLimitExceeded { kind: Kind::Array }));
        }
        self.bunser.consume(1);
        let (keys, rows) = take_keys_and_rows(self.alloc, &mut self.bunser)?;
        let head = SeqHead {
            remaining: rows,
            rows: true,
            levels: self.levels,
            opened: self.opened,
        };
        self.enter_template(keys, inside)?;
        Ok(head)
    }

    /// Opens the object whose tag is next.
    #[inline(always)]
    fn open_object(&mut self) -> Answer<MapHead>
        requires { IsBefore 0x01 self.old.state }
        ensures found { IfOk result (PairsOpened self.old self.new) }
        ensures entries { IfOk result (λ h. h.row ≡ false) }
        ensures kept { OnOk result (Keeps self.old self.new) }
        ensures refused { OnErr result (PairsRefused self.old self.new) }
    {
        let inside = self.levels_inside(Kind::Object)?;
        self.bunser.consume(1);
        let entries = self.bunser.count()?;
        let head = MapHead {
            at: entries,
            row: false,
            levels: self.levels,
            opened: self.opened,
        };
        self.enter(inside);
        Ok(head)
    }
}
