//! The part of a file that a reader keeps: what one read gave, from the octet at which the reader stands on.
ghost use Rattle.std.specs.Prelude.{◌≡◌, ◌+◌, ◌-◌, ◌++◌, ◌<◌, ◌≤◌, ◌^◌, IsTrue, IsSome, [], length, take, drop, min, vec_len, OnOk, OnErr, IfOk};
ghost use Rattle.net_io.specs.Depot.{octets_of, OnlyReads};
ghost use Rattle.net_io.specs.file_window.Window.{IsFrom};

use crate::{Depot, IoFault, read_full_over};
use std::alloc::{AllocError, Global};
use std::marker::Model;

/// How many octets a window has room for.
pub const WINDOW: usize = 65_536;

/// Room for one window.
fn new_room(alloc: Global) -> Result<Vec<u8>, AllocError>
    ensures { IfOk result (λ room. vec_len room ≡ 65536) }
{
    vec![in alloc; 0u8; WINDOW]
}

/// Moves the octets from `start` to `end` to a buffer's front.
fn pack(buffer: &mut Vec<u8>, start: usize, end: usize)
    requires order { start ≤ end }
    requires within { end ≤ vec_len buffer.old }
    ensures moved { take (end - start) buffer.new.items
        ≡ take (end - start) (drop start buffer.old.items) }
    ensures len { vec_len buffer.new ≡ vec_len buffer.old }
{
    buffer.copy_within(start..end, 0);
}

/// One read of the file, from the octet `from` on, into all of a buffer that follows its first `have` octets. Answers how many came.
fn read_after<D: Depot>(
    depot: &mut D,
    name: &str,
    from: u64,
    have: usize,
    buffer: &mut Vec<u8>,
) -> Result<usize, IoFault>
    requires room { have < vec_len buffer.old }
    ensures octets { IfOk result (λ n. IsTrue (D.state depot.old).tells
        → take (have + n) buffer.new.items ≡ take have buffer.old.items
        ++ take n (drop from (octets_of ((D.state depot.old).held name.now)))) }
    ensures front { take have buffer.new.items ≡ take have buffer.old.items }
    ensures fits { IfOk result (λ n. have + n ≤ vec_len buffer.old) }
    ensures len { vec_len buffer.new ≡ vec_len buffer.old }
    ensures end { IfOk result (λ n. IsTrue (D.state depot.old).tells → n ≡ 0
        → length (octets_of ((D.state depot.old).held name.now)) ≤ from) }
    ensures present { OnOk result
        (IsTrue (D.state depot.old).tells → IsSome ((D.state depot.old).held name.now)) }
    ensures place { IfOk result (λ n. from + n < 2 ^ 64) }
    ensures frame { OnlyReads IoFault.Failed result name.now
        (D.state depot.old)
        (D.state depot.new) }
{
    let n = depot.read_over(name, from, &mut buffer[have..])?;
    Ok(n)
}

/// A window of a file: the octets from `start` to `end` are still to be given.
#[derive(Drop)]
pub struct Window {
    octets: Vec<u8>,
    start: usize,
    end: usize,
}

impl Model for Window {
    ghost use Rattle.std.specs.Prelude.{◌≡◌, ◌-◌, ◌≤◌, ℕ, List, take, drop, vec_len};

    ghost Value = { List ℕ };

    ghost view = { λ w. take (w.end - w.start) (drop w.start w.octets.items) };

    ghost invariant = { λ w. (w.start ≤ w.end) × (w.end ≤ 65536) × (vec_len w.octets ≡ 65536) };
}

impl Window {
    /// A window with nothing in it.
    pub fn new(alloc: Global) -> Result<Window, AllocError>
        ensures { IfOk result (λ window. window ≡ []) }
    {
        let octets = new_room(alloc)?;
        Ok(Window {
            octets,
            start: 0,
            end: 0,
        })
    }

    /// What is still to be given.
    pub fn ahead(&self) -> &[u8]
        ensures value { result.now ≡ self.now }
        ensures fits { length self.now ≤ 65536 }
    {
        &self.octets[self.start..self.end]
    }

    /// Goes behind the first `n` octets.
    pub fn pass(&mut self, n: usize)
        requires { n ≤ length self.old }
        ensures { self.new ≡ drop n self.old }
    {
        self.start += n;
    }

    /// Goes behind `n` octets, also where the window has fewer.
    pub fn skip(&mut self, n: usize)
        ensures { self.new ≡ drop n self.old }
    {
        if n <= self.ahead().len() {
            self.pass(n);
        } else {
            self.clear();
        }
    }

    /// Lets go of all octets.
    pub fn clear(&mut self)
        ensures { self.new ≡ [] }
    {
        self.end = self.start;
    }

    /// Reads a window of the file from the octet `place` on, by as many octets as there are and fit.
    pub fn fill<D: Depot>(&mut self, depot: &mut D, name: &str, place: u64) -> Result<(), IoFault>
        ensures octets { OnOk result
            (IsTrue (D.state depot.old).tells
            → IsFrom (octets_of ((D.state depot.old).held name.now)) place self.new) }
        ensures count { OnOk result (IsTrue (D.state depot.old).tells
            → length self.new ≡ min 65536
            (length (octets_of ((D.state depot.old).held name.now)) - place)) }
        ensures present { OnOk result
            (IsTrue (D.state depot.old).tells → IsSome ((D.state depot.old).held name.now)) }
        ensures place { OnOk result (place + length self.new < 2 ^ 64) }
        ensures err { OnErr result (self.new ≡ []) }
        ensures frame { OnlyReads IoFault.Failed result name.now
            (D.state depot.old)
            (D.state depot.new) }
    {
        self.start = 0;
        self.end = 0;
        self.end = read_full_over(depot, name, place, &mut self.octets)?;
        Ok(())
    }

    /// One read of the file, on from what the window has, which stands at `place`. Answers how many octets came.
    fn read_on<D: Depot>(&mut self, depot: &mut D, name: &str, place: u64) -> Result<usize, IoFault>
        requires room { length self.old < 65536 }
        requires place { place + length self.old < 2 ^ 64 }
        ensures octets { IfOk result (λ n. (IsTrue (D.state depot.old).tells → self.new ≡ self.old
            ++ take n (drop (place + length self.old)
            (octets_of ((D.state depot.old).held name.now))))) }
        ensures count { IfOk result (λ n. length self.new ≡ length self.old + n) }
        ensures end { IfOk result (λ n. IsTrue (D.state depot.old).tells → n ≡ 0
            → length (octets_of ((D.state depot.old).held name.now)) ≤ place + length self.old) }
        ensures present { OnOk result
            (IsTrue (D.state depot.old).tells → IsSome ((D.state depot.old).held name.now)) }
        ensures err { OnErr result (self.new ≡ self.old) }
        ensures place { place + length self.new < 2 ^ 64 }
        ensures frame { OnlyReads IoFault.Failed result name.now
            (D.state depot.old)
            (D.state depot.new) }
    {
        let have = self.end - self.start;
        pack(&mut self.octets, self.start, self.end);
        self.start = 0;
        self.end = have;
        let n = read_after(depot, name, place + have as u64, have, &mut self.octets)?;
        self.end = have + n;
        Ok(n)
    }

    /// Reads on while the window, which stands at `place`, has fewer than `need` octets, so that it has them or all that the
    /// file has from there on. It reads no more often than that takes, so that what a stream has given can be used before more comes.
    pub fn reach<D: Depot>(
        &mut self,
        depot: &mut D,
        name: &str,
        place: u64,
        need: usize,
    ) -> Result<(), IoFault>
        requires need { need ≤ 65536 }
        requires ahead { IsTrue (D.state depot.old).tells
            → IsFrom (octets_of ((D.state depot.old).held name.now)) place self.old }
        requires place { place + length self.old < 2 ^ 64 }
        ensures ahead { IsTrue (D.state depot.old).tells
            → IsFrom (octets_of ((D.state depot.old).held name.now)) place self.new }
        ensures enough { OnOk result
            (IsTrue (D.state depot.old).tells → length self.new < need → length self.new
            ≡ length (drop place (octets_of ((D.state depot.old).held name.now)))) }
        ensures present { OnOk result (IsTrue (D.state depot.old).tells → length self.old < need
            → IsSome ((D.state depot.old).held name.now)) }
        ensures place { place + length self.new < 2 ^ 64 }
        ensures frame { OnlyReads IoFault.Failed result name.now
            (D.state depot.old)
            (D.state depot.new) }
    {
        while self.ahead().len() < need {
            if self.read_on(depot, name, place)? == 0 {
                break;
            }
        }
        Ok(())
    }
}
