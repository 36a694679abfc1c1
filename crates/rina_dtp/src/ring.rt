//! The numbers that a datagram receiver accepted lately.
ghost use Rattle.std.specs.Prelude.{◌≡◌, ℕ, ◌+◌, ◌%◌, ◌<◌, ◌≤◌, ◌^◌, length, true, false, max, if◌then◌else◌, nat_le, ◌==◌, ◌&&◌, IfOk};
ghost use Rattle.rina_dtp.specs.Ring.{bit, has_number, IsAdded, IsAlone};

use rina_base::Memory;
use std::alloc::Global;
use std::marker::Model;

/// How many numbers, up to the highest one, the ring remembers.
pub const RECENT: u32 = 4096;

/// The greatest number of a state, and which of the last 4,096 numbers up to it were accepted.
#[derive(Drop)]
pub struct Ring {
    top: u32,
    /// One bit for each of these numbers, at its place modulo 4,096.
    bits: Vec<bool>,
}

impl Model for Ring {
    ghost use Rattle.std.specs.Prelude.{◌≡◌, length};
    ghost use Rattle.rina_dtp.specs.Ring.{Recent};

    ghost Value = { Recent };

    ghost view = { λ r. record { top = r.top; bits = r.bits.items } };

    ghost invariant = { λ r. length r.bits.items ≡ 4096 };
}

/// Clears each bit.
fn clear_all(bits: &mut [bool])
    requires { length bits.old ≡ 4096 }
    ensures { (k : ℕ) → bit bits.new k ≡ false }
{
    for b in bits.iter_mut() {
        *b = false;
    }
}

/// Clears the bits of the numbers after `top`, up to `steps` further on.
fn clear_after(bits: &mut [bool], top: u32, steps: u32)
    requires size { length bits.old ≡ 4096 }
    requires few { steps < 4096 }
    requires fits { top + steps < 2 ^ 32 }
    ensures { (k : ℕ) → k ≤ top + steps → top + steps < k + 4096 → bit bits.new k ≡ (if nat_le k top then bit bits.old k else false) }
{
    for i in 0..steps {
        bits[((top + 1 + i) % RECENT) as usize] = false;
    }
}

/// Goes on to a greater number.
fn advance(bits: &mut [bool], top: u32, number: u32)
    requires size { length bits.old ≡ 4096 }
    requires on { top < number }
    ensures { (k : ℕ) → k ≤ number → number < k + 4096 → bit bits.new k ≡ (if nat_le k top then bit bits.old k else false) }
{
    if number - top >= RECENT {
        clear_all(bits);
    } else {
        clear_after(bits, top, number - top);
    }
}

/// Sets the bit of a number, and answers the greatest one.
fn mark(bits: &mut [bool], top: u32, number: u32) -> u32
    requires size { length bits.old ≡ 4096 }
    requires recent { top < number + 4096 }
    ensures top { result ≡ max number top }
    ensures bits { (k : ℕ) → k ≤ result → result < k + 4096 → bit bits.new k ≡ (if k == number then true else (if nat_le k top then bit bits.old k else false)) }
{
    if number > top {
        advance(bits, top, number);
        bits[(number % RECENT) as usize] = true;
        number
    } else {
        bits[(number % RECENT) as usize] = true;
        top
    }
}

impl Ring {
    /// No number yet. Takes all the memory that is ever needed.
    pub fn new(alloc: Global) -> Result<Ring, Memory>
        ensures { IfOk result (λ r. r.top ≡ 0) }
    {
        Ok(Ring {
            top: 0,
            bits: vec![in alloc; false; 4096]?,
        })
    }

    /// A copy of its own.
    pub fn copy(&self, alloc: Global) -> Result<Ring, Memory>
        ensures { IfOk result (λ r. r ≡ self.now) }
    {
        Ok(Ring {
            top: self.top,
            bits: Vec::from_slice(alloc, self.bits.as_slice())?,
        })
    }

    /// The greatest number.
    pub fn top(&self) -> u32
        ensures { result ≡ self.now.top }
    {
        self.top
    }

    /// Whether a number is older than all that the ring remembers.
    pub fn is_behind(&self, number: u32) -> bool
        ensures { result ≡ nat_le (number + 4096) self.now.top }
    {
        u64::from(number) + u64::from(RECENT) <= u64::from(self.top)
    }

    /// Whether a number that is not too old was accepted.
    pub fn has(&self, number: u32) -> bool
        ensures { result ≡ has_number self.now number }
    {
        number <= self.top && self.bits[(number % RECENT) as usize]
    }

    /// Accepts a number that is not too old.
    pub fn add(&mut self, number: u32)
        requires { self.old.top < number + 4096 }
        ensures { IsAdded number self.old self.new }
    {
        self.top = mark(&mut self.bits, self.top, number);
    }

    /// Begins anew, with one number accepted.
    pub fn restart(&mut self, number: u32)
        ensures { IsAlone number self.new }
    {
        clear_all(&mut self.bits);
        self.bits[(number % RECENT) as usize] = true;
        self.top = number;
    }
}
