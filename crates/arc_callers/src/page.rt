//! A caller's type that lends its items.
ghost use Rattle.std.specs.Vec.{vec_items, with_items, with_items_from};
ghost use Rattle.arc_buffer.specs.Buffers.{vec_written};
ghost use Rattle.std.proofs.Common.{sym, ◌∙◌};
ghost use Rattle.std.proofs.lemmas.List.{with_items_is};

use arc_slice::buffer::{BorrowMetadata, BufferMut, Lend, LendMut};

/// Bytes with a number, as the mapped bytes of a file have one.
#[derive(Drop)]
pub struct Page {
    pub bytes: Vec<u8>,
    pub number: u32,
}

impl Lend<u8> for Page {
    ghost lent = { λ page. vec_items page.bytes };

    fn lend(&self) -> &[u8] {
        self.bytes.as_slice()
    }
}

impl LendMut<u8> for Page {
    ghost with_lent = { λ page xs. record page { bytes = with_items page.bytes xs } };

    fn lend_mut(&mut self) -> &mut [u8] {
        self.bytes.as_mut_slice()
    }

    ghost with_lent_part = { λ page start xs.
        record page { bytes = with_items_from page.bytes start xs } };

    fn lend_mut_part(&mut self, start: usize, end: usize) -> &mut [u8] {
        self.bytes.as_mut_part(start, end)
    }

    ghost agrees_part = { λ page start xs. vec_written page.bytes start xs };

    ghost agrees = { λ page xs same. with_items_is page.bytes xs (same ∙ sym page.bytes.ok.0) };
}

impl BorrowMetadata for Page {
    type Metadata = u32;

    ghost metadata = { λ page. page.number };

    fn borrow_metadata(&self) -> &u32 {
        &self.number
    }
}
