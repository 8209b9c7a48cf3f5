//! Numbers that can be asked for at any place.
use std::alloc::{AllocError, Global};

/// A list of numbers, with 0 at each place past its end. What is written past its end is lost.
#[derive(Drop)]
pub(super) struct Table {
    items: Vec<u32>,
}

impl Table {
    /// So many times the same number.
    pub fn new(alloc: Global, count: usize, number: u32) -> Result<Table, AllocError> {
        Ok(Table {
            items: vec![in alloc; number; count]?,
        })
    }

    /// The number at a place.
    #[inline(always)]
    pub fn at(&self, place: usize) -> u32 {
        match self.items.get(place) {
            Some(number) => *number,
            None => 0,
        }
    }

    /// Writes a number at a place.
    #[inline(always)]
    pub fn put(&mut self, place: usize, number: u32) {
        if place < self.items.len() {
            self.items[place] = number;
        }
    }

    /// Writes the same number at each place.
    pub fn fill(&mut self, number: u32) {
        self.items.fill(number);
    }

    /// How many numbers there are.
    #[inline(always)]
    pub fn len(&self) -> usize {
        self.items.len()
    }
}
