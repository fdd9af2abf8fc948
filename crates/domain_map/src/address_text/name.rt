//! Names of nodes, domains and interfaces.

ghost use Rattle.std.specs.Prelude.{◌≡◌, ◌≤◌, IsTrue, length};
ghost use Rattle.std.specs.List.{list_all};
ghost use Rattle.std.specs.Str.{bytes_eq};
ghost use Rattle.domain_map.specs.address_text.Name.{is_name_octet, is_name, IsNameText, name_of_text};

use arrayvec::ArrayVec;
use std::hash::{Hash, Hasher};
use std::marker::Model;

/// The most octets that a name may have.
const MOST_OCTETS: usize = 63;

/// A name of a node, a domain or an interface: 1 to 63 letters, digits, `_`, `-` and `.`.
#[derive(Debug, Drop)]
pub struct Name {
    text: ArrayVec<u8, MOST_OCTETS>,
}

impl Model for Name {
    ghost use Rattle.std.specs.Prelude.{List, ℕ};
    ghost use Rattle.domain_map.specs.address_text.Name.{IsNameText};

    ghost Value = { List ℕ };

    ghost view = { λ n. n.text.items };

    ghost invariant = { λ n. IsNameText n.text.items };
}

impl Name {
    /// The octets of the name.
    pub fn text(&self) -> &[u8]
        ensures text { result.now ≡ self.now }
        ensures name { IsNameText self.now }
    {
        &self.text
    }

    /// A copy.
    pub fn copy(&self) -> Name
        ensures { result ≡ self.now }
    {
        Name {
            text: held(&self.text),
        }
    }
}

/// Reads a whole text as a name.
pub fn read_name(text: &[u8]) -> Option<Name>
    ensures { result ≡ name_of_text text.now }
{
    if !is_name(text) {
        return None;
    }
    Some(Name { text: held(text) })
}

fn is_name(text: &[u8]) -> bool
    ensures name { result ≡ is_name text.now }
    ensures few { IsTrue result → length text.now ≤ 63 }
{
    !text.is_empty() && text.len() <= MOST_OCTETS && all_fit(text)
}

fn all_fit(text: &[u8]) -> bool
    ensures { result ≡ list_all is_name_octet text.now }
{
    text.iter().all(|octet| is_name_octet(*octet))
}

fn is_name_octet(octet: u8) -> bool
    ensures { result ≡ is_name_octet octet }
{
    matches!(octet, b'a'..=b'z' | b'A'..=b'Z' | b'0'..=b'9' | b'_' | b'-' | b'.')
}

fn held(text: &[u8]) -> ArrayVec<u8, MOST_OCTETS>
    requires { length text.now ≤ 63 }
    ensures { result.items ≡ text.now }
{
    let mut held = ArrayVec::new();
    match held.try_extend_from_slice(text) {
        Ok(()) => held,
        Err(_) => unreachable!(),
    }
}

// Whether two texts are the same. Names are short: four octets after the others cost less than a comparison of slices.
fn same_octets(a: &[u8], b: &[u8]) -> bool
    ensures { result ≡ bytes_eq a.now b.now }
{
    if a.len() != b.len() {
        return false;
    }
    let (mut a, mut b) = (a, b);
    while let ([p, q, r, s, after_a @ ..], [t, u, v, w, after_b @ ..]) = (a, b) {
        if u32::from_be_bytes([*p, *q, *r, *s]) != u32::from_be_bytes([*t, *u, *v, *w]) {
            return false;
        }
        a = after_a;
        b = after_b;
    }
    same_few(a, b)
}

// The same of texts that are as long, octet by octet.
fn same_few(a: &[u8], b: &[u8]) -> bool
    requires { length a.now ≡ length b.now }
    ensures { result ≡ bytes_eq a.now b.now }
{
    let (mut a, mut b) = (a, b);
    while let ([x, after_a @ ..], [y, after_b @ ..]) = (a, b) {
        if *x != *y {
            return false;
        }
        a = after_a;
        b = after_b;
    }
    true
}

impl PartialEq for Name {
    ghost use Rattle.std.proofs.Common.{rules};
    ghost use Rattle.std.specs.Cmp.Rules.{comparing};

    ghost eq = { λ a b. bytes_eq a b };

    ghost laws = { Prim.search (comparing, rules) };

    fn eq(&self, other: &Name) -> bool {
        same_octets(&self.text, &other.text)
    }
}

impl Eq for Name {
    ghost use Rattle.std.proofs.Common.{rules};
    ghost use Rattle.std.specs.Cmp.Rules.{comparing};

    ghost laws = { Prim.search (comparing, rules) };
}

impl Hash for Name {
    ghost use Rattle.std.proofs.Common.{rules};
    ghost use Rattle.std.specs.Cmp.Rules.{hashing};
    ghost use Rattle.std.specs.Hash as fed;

    ghost hash_input = { λ n. fed.slice fed.u8 n };

    ghost respects_eq = { Prim.search (hashing, rules) };

    fn hash<H: Hasher>(&self, state: &mut H) {
        self.text.as_slice().hash(state);
    }
}
