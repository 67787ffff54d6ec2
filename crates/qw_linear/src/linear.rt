ghost use Rattle.std.specs.Prelude.{◌≡◌, ◌+◌, ◌*◌, ◌^◌, ◌<◌, ◌≤◌, [], length, IfOk, IfSome, IsSome, OnSome, IfNone, ◌↔◌, take, drop, replicate, ◌++◌};
ghost use Rattle.qw_linear.specs.Linear.{IsLinear};
ghost use Rattle.qw_linear.specs.Memory.{page, loaded, stored, grown_by, cleared, pages_of, AreOctets};

use qw_base::NoMemory;
use std::alloc::Global;
use std::marker::Model;

/// Octets in a page (WebAssembly Core Specification 1.0, 4.2.8).
pub const PAGE: usize = 65_536;

/// The greatest number of pages of a memory here: one below the standard's 65,536 (3.2.4), so that a
/// memory has fewer than 2^32 octets, and its size in octets fits an i32 as each address does.
pub const MAX_PAGES: u32 = 65_535;

/// A linear memory (4.2.8). Contracts see its octets, and how many pages it may grow to. Addresses
/// count octets from 0, and numbers are little endian. No call but `new` takes memory. A load answers
/// `None`, and a store or a growth too, where it can't be done, and then nothing has changed.
#[derive(Drop)]
pub struct Linear {
    octets: Vec<u8>,
    reserved: u32,
}

impl Model for Linear {
    ghost use Rattle.qw_linear.specs.Linear.{Octets, IsHeld};

    ghost Value = { Octets };

    ghost view = { λ m. record { octets = m.octets.items; reserved = m.reserved } };

    ghost invariant = { λ m. IsHeld m.octets m.reserved };
}

impl Linear {
    /// A memory of no pages, which may grow to so many, at most [`MAX_PAGES`]. They take neither time nor
    /// memory before they are used.
    ///
    /// # Errors
    ///
    /// Want of memory, where the system reserves no room for so many pages.
    pub fn new(alloc: Global, reserved: u32) -> Result<Self, NoMemory>
        requires { reserved ≤ MAX_PAGES }
        ensures { IfOk result (λ memory. memory ≡ record { octets = []; reserved = reserved }) }
    {
        let octets = Vec::with_capacity(alloc, PAGE * reserved as usize)?;
        Ok(Linear { octets, reserved })
    }

    /// The size in pages (4.4.4, `memory.size`).
    pub fn size(&self) -> u32
        ensures pages { length self.now.octets ≡ result * page }
        ensures whole { IsLinear self.now }
    {
        whole_pages(self.octets.as_slice())
    }

    /// How many pages the memory may grow to.
    pub fn reserved(&self) -> u32
        ensures reserved { result ≡ self.now.reserved }
        ensures limit { result ≤ MAX_PAGES }
    {
        self.reserved
    }

    /// Grows the memory by so many pages, whose octets are 0 (4.4.4, `memory.grow`). Answers the size before in pages, or
    /// `None`, exactly where more than the reserved ones would be needed.
    pub fn grow(&mut self, pages: u32) -> Option<u32>
        ensures granted { IsSome result ↔ (length self.old.octets + pages * page ≤ self.old.reserved * page) }
        ensures size { IfSome result (λ before. length self.old.octets ≡ before * page) }
        ensures grown { OnSome result (self.new ≡ record { octets = grown_by pages self.old.octets; reserved = self.old.reserved }) }
        ensures unchanged { IfNone result (self.new ≡ self.old) }
    {
        let before = self.size();
        if self.reserved - before < pages {
            return None;
        }
        let len = PAGE * (before + pages) as usize;
        self.octets.resize(len, 0).ok()?;
        Some(before)
    }

    /// Makes the octets of so many pages from this one on 0.
    pub fn clear(&mut self, first: u32, pages: u32)
        requires { (first + pages) * page ≤ length self.old.octets }
        ensures { self.new ≡ record { octets = cleared first pages self.old.octets; reserved = self.old.reserved } }
    {
        put_zeros(
            self.octets.as_mut_slice(),
            PAGE * first as usize,
            PAGE * pages as usize,
        );
    }

    /// The number of one octet, or `None` exactly where it doesn't lie in the memory.
    pub fn load8(&self, at: u64) -> Option<u64>
        ensures loaded { result ≡ loaded self.now.octets at 1 }
        ensures fits { IfSome result (λ n. n < 2 ^ 8) }
    {
        Some(u64::from(u8::from_le_bytes(*self.chunk::<1>(at)?)))
    }

    /// The number of two octets, or `None` exactly where they don't all lie in the memory.
    pub fn load16(&self, at: u64) -> Option<u64>
        ensures loaded { result ≡ loaded self.now.octets at 2 }
        ensures fits { IfSome result (λ n. n < 2 ^ 16) }
    {
        Some(u64::from(u16::from_le_bytes(*self.chunk::<2>(at)?)))
    }

    /// The number of four octets, or `None` exactly where they don't all lie in the memory.
    pub fn load32(&self, at: u64) -> Option<u64>
        ensures loaded { result ≡ loaded self.now.octets at 4 }
        ensures fits { IfSome result (λ n. n < 2 ^ 32) }
    {
        Some(u64::from(u32::from_le_bytes(*self.chunk::<4>(at)?)))
    }

    /// The number of eight octets, or `None` exactly where they don't all lie in the memory.
    pub fn load64(&self, at: u64) -> Option<u64>
        ensures loaded { result ≡ loaded self.now.octets at 8 }
        ensures fits { IfSome result (λ n. n < 2 ^ 64) }
    {
        Some(u64::from_le_bytes(*self.chunk::<8>(at)?))
    }

    /// Writes the low octet of the number, or nothing, exactly where it wouldn't lie in the memory.
    pub fn store8(&mut self, at: u64, number: u64) -> Option<()>
        ensures inside { IsSome result ↔ (at + 1 ≤ length self.old.octets) }
        ensures stored { self.new ≡ record { octets = stored self.old.octets at 1 number; reserved = self.old.reserved } }
    {
        let [a, ..] = number.to_le_bytes();
        self.put(at, [a])
    }

    /// Writes the low two octets of the number, or nothing, exactly where they wouldn't all lie in the
    /// memory.
    pub fn store16(&mut self, at: u64, number: u64) -> Option<()>
        ensures inside { IsSome result ↔ (at + 2 ≤ length self.old.octets) }
        ensures stored { self.new ≡ record { octets = stored self.old.octets at 2 number; reserved = self.old.reserved } }
    {
        let [a, b, ..] = number.to_le_bytes();
        self.put(at, [a, b])
    }

    /// Writes the low four octets of the number, or nothing, exactly where they wouldn't all lie in the
    /// memory.
    pub fn store32(&mut self, at: u64, number: u64) -> Option<()>
        ensures inside { IsSome result ↔ (at + 4 ≤ length self.old.octets) }
        ensures stored { self.new ≡ record { octets = stored self.old.octets at 4 number; reserved = self.old.reserved } }
    {
        let [a, b, c, d, ..] = number.to_le_bytes();
        self.put(at, [a, b, c, d])
    }

    /// Writes the eight octets of the number, or nothing, exactly where they wouldn't all lie in the
    /// memory.
    pub fn store64(&mut self, at: u64, number: u64) -> Option<()>
        ensures inside { IsSome result ↔ (at + 8 ≤ length self.old.octets) }
        ensures stored { self.new ≡ record { octets = stored self.old.octets at 8 number; reserved = self.old.reserved } }
    {
        self.put(at, number.to_le_bytes())
    }

    /// Copies the octets to the place, or nothing, exactly where they wouldn't all lie in the memory.
    pub fn copy_in(&mut self, at: u64, bytes: &[u8]) -> Option<()>
        ensures inside { IsSome result ↔ (at + length bytes.now ≤ length self.old.octets) }
        ensures copied { OnSome result (self.new ≡ record { octets = take at self.old.octets ++ bytes.now ++ drop (at + length bytes.now) self.old.octets; reserved = self.old.reserved }) }
        ensures unchanged { IfNone result (self.new ≡ self.old) }
    {
        let at = at as usize;
        let len = self.octets.len();
        if len < at || len - at < bytes.len() {
            return None;
        }
        put_bytes(self.octets.as_mut_slice(), at, bytes);
        Some(())
    }

    /// So many octets from a place on, or `None` exactly where they don't all lie in the memory.
    pub fn octets_at(&self, at: u64, size: u64) -> Option<&[u8]>
        ensures inside { IsSome result ↔ (at + size ≤ length self.now.octets) }
        ensures octets { IfSome result (λ octets. octets.now ≡ take size (drop at self.now.octets)) }
    {
        self.octets.get(at as usize..)?.get(..size as usize)
    }

    /// The octets from a place on, or `None` exactly where they don't all lie in the memory.
    fn chunk<const N: usize>(&self, at: u64) -> Option<&[u8; N]>
        ensures inside { IsSome result ↔ (at + N ≤ length self.now.octets) }
        ensures octets { IfSome result (λ chunk. chunk.now ≡ take N (drop at self.now.octets)) }
    {
        self.octets.get(at as usize..)?.first_chunk::<N>()
    }

    /// Writes the octets from a place on, or nothing, exactly where they wouldn't all lie in the memory.
    fn put<const N: usize>(&mut self, at: u64, bytes: [u8; N]) -> Option<()>
        ensures inside { IsSome result ↔ (at + N ≤ length self.old.octets) }
        ensures put { OnSome result (self.new ≡ record { octets = take at self.old.octets ++ bytes.entry ++ drop (at + N) self.old.octets; reserved = self.old.reserved }) }
        ensures unchanged { IfNone result (self.new ≡ self.old) }
    {
        let at = at as usize;
        let len = self.octets.len();
        if len < at || len - at < N {
            return None;
        }
        put_array(self.octets.as_mut_slice(), at, bytes);
        Some(())
    }
}

/// How many whole pages there are.
fn whole_pages(octets: &[u8]) -> u32
    requires { pages_of octets.now ≤ MAX_PAGES }
    ensures pages { result ≡ pages_of octets.now }
    ensures octets { AreOctets octets.now }
{
    (octets.len() / PAGE) as u32
}

/// Writes the octets from a place on: one write of a whole array, where `copy_from_slice` would test for
/// overlap.
fn put_array<const N: usize>(octets: &mut [u8], at: usize, bytes: [u8; N])
    requires { at + N ≤ length octets.old }
    ensures { octets.new ≡ take at octets.old ++ bytes.entry ++ drop (at + N) octets.old }
{
    put_first(&mut octets[at..], bytes);
}

/// Writes the octets at the front.
fn put_first<const N: usize>(octets: &mut [u8], bytes: [u8; N])
    requires { N ≤ length octets.old }
    ensures { octets.new ≡ bytes.entry ++ drop N octets.old }
{
    if let Some(chunk) = octets.first_chunk_mut::<N>() {
        *chunk = bytes;
    }
}

/// Writes so many octets from a place on.
fn put_bytes(octets: &mut [u8], at: usize, bytes: &[u8])
    requires { at + length bytes.now ≤ length octets.old }
    ensures { octets.new ≡ take at octets.old ++ bytes.now ++ drop (at + length bytes.now) octets.old }
{
    octets[at..at + bytes.len()].copy_from_slice(bytes);
}

/// Makes so many octets from a place on 0.
fn put_zeros(octets: &mut [u8], at: usize, count: usize)
    requires { at + count ≤ length octets.old }
    ensures { octets.new ≡ take at octets.old ++ (replicate count 0 ++ drop (at + count) octets.old) }
{
    octets[at..at + count].fill(0);
}
