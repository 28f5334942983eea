ghost use Rattle.std.specs.Prelude.{◌≡◌, ◌≤◌, length, codes, Decides, MatchOption};
ghost use Rattle.std.specs.List.{ContainsAt as Has};
ghost use Rattle.book.specs.Spelling.{name_byte, name_bytes, Spelt};

use super::Name;

fn is_name_byte(b: u8) -> bool
    ensures { result ≡ name_byte b }
{
    matches!(b, b'a'..=b'z' | b'0'..=b'9' | b'-')
}

fn has_name_bytes(s: &[u8]) -> bool
    ensures { result ≡ name_bytes s.now }
{
    s.iter().all(|b| is_name_byte(*b))
}

fn is_spelt(s: &[u8]) -> bool
    ensures { Decides result (Spelt s.now) }
{
    1 <= s.len() && s.len() <= 12 && has_name_bytes(s)
}

impl Name {
    // The name with these letters.
    fn new(s: &[u8]) -> Name
        requires { length s.now ≤ 12 }
        ensures { result ≡ s.now }
    {
        let mut bytes = [0; 12];
        bytes[..s.len()].copy_from_slice(s);
        Name {
            bytes,
            len: s.len(),
        }
    }

    // The name that a text spells, or nothing where it is ill spelt.
    pub fn spelt(s: &[u8]) -> Option<Name>
        ensures { MatchOption result (Spelt s.now → ⊥) (λ n. Spelt s.now × (n ≡ s.now)) }
    {
        is_spelt(s).then(|| Name::new(s))
    }

    pub fn cash() -> Name
        ensures { result ≡ codes "cash" }
    {
        Name::new(b"cash")
    }

    // How many letters there are.
    pub fn len(&self) -> usize
        ensures count { result ≡ length self.now }
        ensures bound { result ≤ 12 }
    {
        self.len
    }

    // The letters.
    pub fn as_slice(&self) -> &[u8]
        ensures { result.now ≡ self.now }
    {
        &self.bytes[0..self.len]
    }
}

// Whether some name has these letters.
pub fn is_among(names: &[Name], s: &[u8]) -> bool
    ensures { Decides result (Has names.now s.now) }
{
    names.iter().any(|name| name.as_slice() == s)
}
