ghost use Rattle.std.specs.Prelude.{◌≡◌, ◌+◌, ◌≤◌, ℕ, true, length, max, take, replicate, vec_len};
ghost use Rattle.std.specs.Prelude.{vec_capacity, MatchResult, IsOk, OnOk, OnErr, IfOk};
ghost use Rattle.mx_outside.specs.Disk.{put_at};

use std::alloc::{AllocError, Global};
use std::marker::Model;

/// What a disk in memory holds, what it held at the last sync, and which bytes were written since.
#[derive(Drop)]
pub(crate) struct DiskImage {
    content: Vec<u8>,
    synced: Vec<u8>,
    fresh: Vec<bool>,
    capacity: usize,
}

impl Model for DiskImage {
    ghost use Rattle.std.specs.Prelude.{◌≤◌, vec_capacity};
    ghost use Rattle.mx_outside.specs.DiskImage.{Image, IsWhole, Capacities};

    ghost Value = { Image };

    ghost view = { λ i. record {
      content = i.content.items;
      synced = i.synced.items;
      fresh = i.fresh.items;
      capacity = i.capacity;
    } };

    ghost invariant = { λ i. IsWhole (record {
      content = i.content.items;
      synced = i.synced.items;
      fresh = i.fresh.items;
      capacity = i.capacity;
    }) × Capacities i.capacity
        (vec_capacity i.content) (vec_capacity i.synced) (vec_capacity i.fresh) };
}

/// Puts the piece over what stands from `at` on, where there is memory for it.
fn put_piece(bytes: &mut Vec<u8>, at: usize, piece: &[u8])
    requires place { at ≤ vec_len bytes.old }
    requires fits { at + length piece.now ≤ vec_capacity bytes.old }
    ensures items { bytes.new.items ≡ put_at at piece.now bytes.old.items }
    ensures capacity { vec_capacity bytes.old ≤ vec_capacity bytes.new }
{
    let over = piece.len().min(bytes.len() - at);
    let (front, back) = piece.split_at(over);
    bytes[at..at + over].copy_from_slice(front);
    match bytes.extend_from_slice(back) {
        Ok(()) => {}
        Err(_) => unreachable!(),
    }
}

/// Marks so many bytes from `at` on, where there is memory for the marks.
fn mark(marks: &mut Vec<bool>, at: usize, count: usize)
    requires place { at ≤ vec_len marks.old }
    requires fits { at + count ≤ vec_capacity marks.old }
    ensures items { marks.new.items ≡ put_at at (replicate count true) marks.old.items }
    ensures capacity { vec_capacity marks.old ≤ vec_capacity marks.new }
{
    for index in at..at + count {
        if index < marks.len() {
            marks[index] = true;
        } else {
            marks.push_reserved(true);
        }
    }
}

/// Takes memory for so many items in all.
fn reserve_to<T>(items: &mut Vec<T>, capacity: usize) -> Result<(), AllocError>
    ensures items { items.new.items ≡ items.old.items }
    ensures reserved { OnOk result (capacity ≤ vec_capacity items.new) }
    ensures capacity { vec_capacity items.old ≤ vec_capacity items.new }
    ensures within { capacity ≤ vec_capacity items.old → IsOk result }
{
    items.reserve(capacity.saturating_sub(items.len()))
}

impl DiskImage {
    ghost use Rattle.mx_outside.specs.Changes.{filled};
    ghost use Rattle.mx_outside.specs.DiskImage.{image_written, image_cut, image_synced};
    ghost use Rattle.mx_outside.specs.DiskImage.{image_first};

    /// This content, all of it synced, with memory for `more` further bytes.
    pub fn new(alloc: Global, content: &[u8], more: usize) -> Result<DiskImage, AllocError>
        ensures { IfOk result (λ image.
            image ≡ image_first content.now (length content.now + more)) }
    {
        let Some(capacity) = content.len().checked_add(more) else {
            return Err(AllocError);
        };
        let mut held = Vec::with_capacity(alloc, capacity)?;
        held.extend_from_slice(content)?;
        let mut synced = Vec::with_capacity(alloc, capacity)?;
        synced.extend_from_slice(content)?;
        let mut fresh = Vec::with_capacity(alloc, capacity)?;
        fresh.resize(content.len(), false)?;
        Ok(DiskImage {
            content: held,
            synced,
            fresh,
            capacity,
        })
    }

    /// What a read gives.
    pub fn content(&self) -> &[u8]
        ensures { result.now ≡ self.now.content }
    {
        &self.content
    }

    /// What a read gave after the last sync.
    pub fn synced(&self) -> &[u8]
        ensures { result.now ≡ self.now.synced }
    {
        &self.synced
    }

    /// What a read gives, with this value in the place of each byte that was written since the
    /// last sync.
    pub fn filled(&self, alloc: Global, value: u8) -> Result<Vec<u8>, AllocError>
        ensures { IfOk result (λ bytes.
            bytes.items ≡ filled value self.now.fresh self.now.content) }
    {
        let mut bytes = Vec::with_capacity(alloc, self.content.len())?;
        for index in 0..self.content.len() {
            let byte = if self.fresh[index] {
                value
            } else {
                self.content[index]
            };
            bytes.push(byte)?;
        }
        Ok(bytes)
    }

    /// Takes memory for `capacity` bytes in all. What is held needs no more.
    pub fn reserve(&mut self, capacity: usize) -> Result<(), AllocError>
        ensures within { capacity ≤ max self.old.capacity (length self.old.content) → IsOk result }
        ensures reserves { MatchResult result
            (λ _. self.new ≡ record self.old { capacity = max self.old.capacity capacity })
            (λ _. self.new ≡ self.old) }
    {
        if capacity <= self.capacity {
            return Ok(());
        }
        reserve_to(&mut self.content, capacity)?;
        reserve_to(&mut self.synced, capacity)?;
        reserve_to(&mut self.fresh, capacity)?;
        self.capacity = capacity;
        Ok(())
    }

    /// Writes a piece, where there is memory for it.
    pub fn write(&mut self, at: usize, piece: &[u8])
        requires place { at ≤ length self.old.content }
        requires fits { at + length piece.now ≤ self.old.capacity }
        ensures { self.new ≡ image_written self.old at piece.now }
    {
        put_piece(&mut self.content, at, piece);
        mark(&mut self.fresh, at, piece.len());
    }

    /// Cuts it to so many bytes.
    pub fn cut(&mut self, to: usize)
        ensures { self.new ≡ image_cut self.old to }
    {
        self.content.truncate(to);
        self.fresh.truncate(to);
    }

    /// Makes what a read gives what was synced last.
    pub fn sync(&mut self)
        ensures { self.new ≡ image_synced self.old }
    {
        self.synced.clear();
        match self.synced.extend_from_slice(&self.content) {
            Ok(()) => {}
            Err(_) => unreachable!(),
        }
        self.fresh.clear();
        match self.fresh.resize(self.content.len(), false) {
            Ok(()) => {}
            Err(_) => unreachable!(),
        }
    }
}
