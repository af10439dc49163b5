ghost use Rattle.std.specs.Prelude.{◌≡◌, ◌+◌, ◌<◌, ◌≤◌, ◌/◌, ◌%◌, true, length, take, OnOk};
ghost use Rattle.object_id.specs.Piece.{laid_over};
ghost use Rattle.object_id.specs.Fields.{zeros};
ghost use Rattle.object_store.specs.Bytes.{piece_at, trimmed_bytes};
ghost use Rattle.page_store.specs.declared.page.TheConstants.{PAGE_BYTES};
ghost use Rattle.page_store.specs.Pages.{has_page, HasPages, KeepsPages, page_bytes, HasPagesKept};

use crate::page::{PAGE_BYTES, Page};
use object_id::{Bytes, FnvHasher, NoMemory, lay_over};
use object_store::{RowBytes, trimmed_len};
use std::alloc::Global;
use std::collections::BTreeMap;
use std::marker::Model;

/// The bytes of a row, page by page. A page that isn't there is zeros.
#[derive(Drop)]
pub struct PageRow {
    size: u32,
    pages: BTreeMap<usize, Page>,
}

impl Model for PageRow {
    ghost use Rattle.std.specs.Map.{keys_of};
    ghost use Rattle.page_store.specs.Pages.{KeptPages, row_bytes_in};

    ghost Value = { KeptPages };

    ghost view = { λ s. record { bytes = row_bytes_in s.size s.pages.entries; pages = keys_of s.pages.entries } };
}

impl PageRow {
    /// So many zeros: no page is there. Takes no memory.
    fn zeros(alloc: Global, size: u32) -> PageRow
        ensures { result.bytes ≡ zeros size }
    {
        PageRow {
            size,
            pages: BTreeMap::new(alloc),
        }
    }

    /// Lays over zeros a piece that ends in the same page. For zeros no page is made.
    fn put_part(&mut self, alloc: Global, place: usize, piece: &[u8]) -> Result<(), NoMemory>
        requires within { place + length piece.now ≤ length self.old.bytes }
        requires page { place % PAGE_BYTES + length piece.now ≤ PAGE_BYTES }
        requires zeros { piece_at self.old.bytes place (length piece.now) ≡ zeros (length piece.now) }
        ensures { OnOk result (self.new.bytes ≡ laid_over self.old.bytes place piece.now) }
    {
        let count = trimmed_len(piece);
        if count == 0 {
            return Ok(());
        }
        self.add_page(alloc, place / PAGE_BYTES)?;
        self.write_part(place, piece);
        Ok(())
    }

    /// Makes the pages of a piece, so that it is written without memory. No byte changes.
    fn add_pages(&mut self, alloc: Global, offset: u32, count: u32) -> Result<(), NoMemory>
        requires { offset + count ≤ length self.old.bytes }
        ensures bytes { self.new.bytes ≡ self.old.bytes }
        ensures room { KeepsPages self.old.pages self.new.pages }
        ensures ok { OnOk result (HasPages self.new.pages offset count) }
    {
        let count = count as usize;
        let mut done = 0;
        while done < count {
            let place = offset as usize + done;
            self.add_page(alloc, place / PAGE_BYTES)?;
            done += count_in_page(place, count - done);
        }
        Ok(())
    }

    /// Makes the page of a number, if it isn't there.
    fn add_page(&mut self, alloc: Global, number: usize) -> Result<(), NoMemory>
        ensures bytes { self.new.bytes ≡ self.old.bytes }
        ensures room { KeepsPages self.old.pages self.new.pages }
        ensures ok { OnOk result (has_page number self.new.pages ≡ true) }
    {
        if self.pages.contains_key(&number) {
            return Ok(());
        }
        let page = Page::new(alloc)?;
        self.pages.insert(number, page)?;
        Ok(())
    }

    /// Lays over the bytes from `place` on a piece that ends in the same page.
    fn write_part(&mut self, place: usize, piece: &[u8])
        requires within { place + length piece.now ≤ length self.old.bytes }
        requires page { place % PAGE_BYTES + length piece.now ≤ PAGE_BYTES }
        requires there { has_page (place / PAGE_BYTES) self.old.pages ≡ true }
        ensures bytes { self.new.bytes ≡ laid_over self.old.bytes place piece.now }
        ensures pages { self.new.pages ≡ self.old.pages }
    {
        let Some(page) = self.pages.get_mut(&(place / PAGE_BYTES)) else {
            return;
        };
        page.write(place % PAGE_BYTES, piece);
    }

    /// The `count` bytes from `place` on, which end in the same page.
    fn part(&self, place: usize, count: usize) -> &[u8]
        requires within { place + count ≤ length self.now.bytes }
        requires page { place % PAGE_BYTES + count ≤ PAGE_BYTES }
        ensures value { result.now ≡ piece_at self.now.bytes place count }
        ensures len { length result.now ≡ count }
    {
        let start = place % PAGE_BYTES;
        match self.pages.get(&(place / PAGE_BYTES)) {
            Some(page) => &page.as_slice()[start..start + count],
            None => &no_page()[..count],
        }
    }

    /// From where on no page is there, or the row's end.
    fn end_of_pages(&self) -> usize
        ensures value { trimmed_bytes (take result self.now.bytes) ≡ trimmed_bytes self.now.bytes }
        ensures within { result ≤ length self.now.bytes }
    {
        let Some((last, _)) = self.pages.last_key_value() else {
            return 0;
        };
        let size = self.size as usize;
        if *last < size / PAGE_BYTES {
            (*last + 1) * PAGE_BYTES
        } else {
            size
        }
    }

    /// Up to where the bytes go that end at the last one that isn't 0.
    fn trimmed_len(&self) -> usize
        ensures value { take result self.now.bytes ≡ trimmed_bytes self.now.bytes }
        ensures within { result ≤ length self.now.bytes }
    {
        let mut end = self.end_of_pages();
        while end > 0 {
            let start = (end - 1) / PAGE_BYTES * PAGE_BYTES;
            let count = trimmed_len(self.part(start, end - start));
            if count > 0 {
                return start + count;
            }
            end = start;
        }
        0
    }
}

impl RowBytes for PageRow {
    ghost bytes = { page_bytes };

    ghost HasRoom = { HasPagesKept };

    // A page that would be zeros isn't made.
    fn new(alloc: Global, size: u32, offset: u32, piece: &[u8]) -> Result<PageRow, NoMemory> {
        let mut row = PageRow::zeros(alloc, size);
        let mut done = 0;
        while done < piece.len() {
            let place = offset as usize + done;
            let count = count_in_page(place, piece.len() - done);
            row.put_part(alloc, place, &piece[done..done + count])?;
            done += count;
        }
        Ok(row)
    }

    fn len(&self) -> u32 {
        self.size
    }

    fn reserve(&mut self, alloc: Global, offset: u32, count: u32) -> Result<(), NoMemory> {
        self.add_pages(alloc, offset, count)
    }

    fn write(&mut self, offset: u32, piece: &[u8]) {
        let mut done = 0;
        while done < piece.len() {
            let place = offset as usize + done;
            let count = count_in_page(place, piece.len() - done);
            self.write_part(place, &piece[done..done + count]);
            done += count;
        }
    }

    fn read(&self, offset: u32, out: &mut [u8]) {
        let mut done = 0;
        while done < out.len() {
            let place = offset as usize + done;
            let count = count_in_page(place, out.len() - done);
            lay_over(out, done, self.part(place, count));
            done += count;
        }
    }

    fn hash(&self) -> u64 {
        let end = self.trimmed_len();
        let mut hash = FnvHasher::new();
        let mut done = 0;
        while done < end {
            let count = count_in_page(done, end - done);
            hash.write(self.part(done, count));
            done += count;
        }
        hash.finish()
    }

    fn trimmed(&self, alloc: Global) -> Result<Bytes, NoMemory> {
        let end = self.trimmed_len();
        let mut items = Vec::with_capacity(alloc, end)?;
        items.resize(end, 0)?;
        self.read(0, &mut items);
        Ok(Bytes::from_vec(items))
    }
}

/// What a page that isn't there reads as.
fn no_page() -> &'static [u8; PAGE_BYTES]
    ensures { result.now ≡ zeros PAGE_BYTES }
{
    &[0; PAGE_BYTES]
}

/// How many of the `count` bytes from `place` on are in the page of the first.
fn count_in_page(place: usize, count: usize) -> usize
    ensures page { place % PAGE_BYTES + result ≤ PAGE_BYTES }
    ensures within { result ≤ count }
    ensures some { 0 < count → 0 < result }
{
    count.min(PAGE_BYTES - place % PAGE_BYTES)
}

#[cfg(test)]
mod tests {
    use super::*;
    use std::test::Fail;

    const GREATEST: u32 = 16_777_216;

    /// A row with a piece, if that ends within it.
    fn row_with(
        alloc: Global,
        length: u32,
        at: u32,
        piece: &[u8],
    ) -> Result<Option<PageRow>, NoMemory> {
        if piece.len() > length as usize {
            return Ok(None);
        }
        if at as usize > length as usize - piece.len() {
            return Ok(None);
        }
        Ok(Some(PageRow::new(alloc, length, at, piece)?))
    }

    /// Writes a piece, if it ends within the row.
    fn write(row: &mut PageRow, alloc: Global, at: u32, piece: &[u8]) -> Result<bool, NoMemory> {
        let length = row.len();
        if piece.len() > length as usize {
            return Ok(false);
        }
        if at as usize > length as usize - piece.len() {
            return Ok(false);
        }
        row.reserve(alloc, at, piece.len() as u32)?;
        row.write(at, piece);
        Ok(true)
    }

    // A row of the greatest length takes the memory of the pages that were written.
    #[test]
    fn has_the_pages_that_were_written(rt: HostRuntime) -> Result<(), Fail> {
        let alloc = rt.alloc();
        let mut row = row_with(alloc, GREATEST, 9_000_000, &[1])?.ok_or("no row")?;
        assert_eq!(rt; row.pages.len(), 1);
        assert!(rt; write(&mut row, alloc, 9_000_001, &[2; 100])?);
        assert_eq!(rt; row.pages.len(), 1);
        assert!(rt; write(&mut row, alloc, 4095, &[3, 4])?);
        assert_eq!(rt; row.pages.len(), 3);
        Ok(())
    }

    // A copy of a sparse row is as sparse.
    #[test]
    fn makes_no_page_for_zeros(rt: HostRuntime) -> Result<(), Fail> {
        let alloc = rt.alloc();
        let row = row_with(alloc, GREATEST, 9_000_000, &[1])?.ok_or("no row")?;
        let bytes = row.trimmed(alloc)?;
        let copy = row_with(alloc, GREATEST, 0, bytes.as_slice())?.ok_or("no row")?;
        assert_eq!(rt; copy.pages.len(), 1);
        Ok(())
    }
}
