// A seat of a hall that is used with a sheet.
use super::forms::{Price, price_of_form};
use grammar::sheet::Sheet;
use std::alloc::Global;

#[derive(Clone, Copy)]
pub(crate) struct View<'a> {
    pub sheet: &'a Sheet,
    pub hall: &'a [u64],
    pub seat: usize,
}

impl<'a> View<'a> {
    // The seat's numbers from one on; a seat of the hall has them.
    pub(crate) fn numbers(self, from: usize, count: usize) -> &'a [u64] {
        let first = self.seat.saturating_mul(945).saturating_add(from);
        self.hall
            .get(first..first.saturating_add(count))
            .unwrap_or(&[])
    }

    pub(crate) fn words(self) -> &'a [u64] {
        match self.numbers(0, 1) {
            [count] => self.numbers(1, usize::try_from(*count).unwrap_or(0)),
            _ => &[],
        }
    }

    // What the form on the list costs by the rules it names, where it is the form of a derivation.
    pub(crate) fn form_price(self, heap: Global, list: &[u8], length: usize) -> Option<Price> {
        price_of_form(heap, self.sheet, self.words(), list.get(..length)?)
            .ok()
            .flatten()
    }
}
