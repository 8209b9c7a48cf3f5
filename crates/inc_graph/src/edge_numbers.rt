//! A number for each edge of a graph.
ghost use Rattle.std.specs.Prelude.{◌≡◌, ◌<◌, ◌≤◌, ◌-◌, length, replicate, slice_index, slice_set, IfOk, OnOk};
ghost use Rattle.inc_graph.specs.EdgeNumbers.{numbers_in, most_in};

use std::alloc::{AllocError, Global};
use std::marker::Model;

/// Numbers in as few bytes as the largest so far takes, each in as many.
#[derive(Drop)]
enum Numbers {
    Bytes(Vec<u8>),
    Words(Vec<u32>),
    Longs(Vec<u64>),
}

impl Numbers {
    /// The number at a place.
    #[inline(always)]
    fn at(&self, place: usize) -> u64
        requires { place < length (numbers_in self.now) }
        ensures at { result ≡ slice_index (numbers_in self.now) place }
        ensures most { result ≤ most_in self.now }
    {
        match self {
            Numbers::Bytes(numbers) => u64::from(numbers[place]),
            Numbers::Words(numbers) => u64::from(numbers[place]),
            Numbers::Longs(numbers) => numbers[place],
        }
    }

    /// The largest number for which there is room.
    #[inline(always)]
    fn most(&self) -> u64
        ensures { result ≡ most_in self.now }
    {
        match self {
            Numbers::Bytes(_) => u64::from(u8::MAX),
            Numbers::Words(_) => u64::from(u32::MAX),
            Numbers::Longs(_) => u64::MAX,
        }
    }

    /// Puts a number, for which there is room, at a place.
    #[inline(always)]
    fn set(&mut self, place: usize, number: u64)
        requires within { place < length (numbers_in self.old) }
        requires fits { number ≤ most_in self.old }
        ensures { numbers_in self.new ≡ slice_set (numbers_in self.old) place number }
    {
        match self {
            Numbers::Bytes(numbers) => numbers[place] = number as u8,
            Numbers::Words(numbers) => numbers[place] = number as u32,
            Numbers::Longs(numbers) => numbers[place] = number,
        }
    }

    /// The same numbers with more room, enough for this one.
    #[inline(never)]
    fn widened(&self, alloc: Global, number: u64) -> Result<Numbers, AllocError>
        requires more { most_in self.now < number }
        requires long { number ≤ 18_446_744_073_709_551_615 }
        ensures same { IfOk result (λ wide. numbers_in wide ≡ numbers_in self.now) }
        ensures fits { IfOk result (λ wide. number ≤ most_in wide) }
    {
        match self {
            Numbers::Bytes(numbers) => {
                let words = words_of(alloc, numbers)?;
                if number <= u64::from(u32::MAX) {
                    return Ok(Numbers::Words(words));
                }
                Ok(Numbers::Longs(longs_of(alloc, &words)?))
            }
            Numbers::Words(numbers) => Ok(Numbers::Longs(longs_of(alloc, numbers)?)),
            Numbers::Longs(_) => unreachable!(),
        }
    }
}

/// The same numbers in four bytes each.
fn words_of(alloc: Global, bytes: &[u8]) -> Result<Vec<u32>, AllocError>
    ensures { IfOk result (λ words. words.items ≡ bytes.now) }
{
    let mut words = Vec::with_capacity(alloc, bytes.len())?;
    for number in bytes {
        words.push(u32::from(*number))?;
    }
    Ok(words)
}

/// The same numbers in eight bytes each.
fn longs_of(alloc: Global, words: &[u32]) -> Result<Vec<u64>, AllocError>
    ensures { IfOk result (λ longs. longs.items ≡ words.now) }
{
    let mut longs = Vec::with_capacity(alloc, words.len())?;
    for number in words {
        longs.push(u64::from(*number))?;
    }
    Ok(longs)
}

/// Numbers for the edges of a graph, as a flow or sums of counts have. They take a byte each until the first does not fit into one, then
/// four bytes, and eight once one does not fit into these: most are small, and a path that goes through many files touches few pages of
/// them.
#[derive(Drop)]
pub struct EdgeNumbers {
    numbers: Numbers,
    alloc: Global,
}

impl Model for EdgeNumbers {
    ghost use Rattle.std.specs.Prelude.{List, ℕ};
    ghost use Rattle.inc_graph.specs.EdgeNumbers.{numbers_in};

    ghost Value = { List ℕ };

    ghost view = { λ s. numbers_in s.numbers };
}

impl EdgeNumbers {
    /// So many numbers, each 0.
    pub fn zeros(alloc: Global, edges: usize) -> Result<EdgeNumbers, AllocError>
        ensures { IfOk result (λ numbers. numbers ≡ replicate edges 0) }
    {
        let numbers = Numbers::Bytes(vec![in alloc; 0; edges]?);
        Ok(EdgeNumbers { numbers, alloc })
    }

    /// The number at a place.
    #[inline(always)]
    pub fn at(&self, place: usize) -> u64
        requires { place < length self.now }
        ensures { result ≡ slice_index self.now place }
    {
        self.numbers.at(place)
    }

    /// Puts another number in place of the one there. Memory is asked for by the first number over 255, and by the first over
    /// 4,294,967,295.
    #[inline(always)]
    pub fn put(&mut self, place: usize, number: u64) -> Result<(), AllocError>
        requires { place < length self.old }
        ensures put { OnOk result (self.new ≡ slice_set self.old place number) }
        ensures long { length self.new ≡ length self.old }
    {
        if number > self.numbers.most() {
            self.numbers = self.numbers.widened(self.alloc, number)?;
        }
        self.numbers.set(place, number);
        Ok(())
    }

    /// Takes an amount off the number at a place, which asks for no memory.
    #[inline(always)]
    pub fn lower(&mut self, place: usize, amount: u64)
        requires within { place < length self.old }
        requires enough { amount ≤ slice_index self.old place }
        ensures { self.new ≡ slice_set self.old place (slice_index self.old place - amount) }
    {
        let number = self.numbers.at(place) - amount;
        self.numbers.set(place, number);
    }
}
