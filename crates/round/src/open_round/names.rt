ghost use Rattle.std.specs.Prelude.{◌≤◌};
ghost use Rattle.round.specs.Rounds.{book};
ghost use Rattle.round.specs.Naming.{Listed, TakesItem, TakesMember};
ghost use Rattle.round.specs.Uses.{RoundLaw};

use super::OpenRound;
use tables::refusal::Refusal;
use tables::table::Table;
use terms::name::Name;
use terms::name::spelling::is_among;

// Puts a name at the end of a list of names, and answers its number.
fn list<const N: usize>(names: &mut Table<Name, N>, s: &[u8]) -> Result<u32, Refusal>
    requires { N ≤ 32 }
    ensures { Listed N names.old names.new s.now result }
{
    let n = names.len();
    if n == N {
        return Err(Refusal::Full);
    }
    let name = Name::spelt(s).ok_or(Refusal::Spelling)?;
    if is_among(names.as_slice(), s) {
        return Err(Refusal::Double);
    }
    names.push(name).unwrap();
    Ok(n as u32)
}

impl OpenRound {
    // A new item, and its number.
    pub fn item(&mut self, name: &[u8]) -> Result<u32, Refusal>
        ensures outcome { TakesItem (book self.old) (book self.new) name.now result }
        ensures law { RoundLaw }
    {
        list(&mut self.items, name)
    }

    // A new member, and its number.
    pub fn member(&mut self, name: &[u8]) -> Result<u32, Refusal>
        ensures outcome { TakesMember (book self.old) (book self.new) name.now result }
        ensures law { RoundLaw }
    {
        list(&mut self.members, name)
    }
}
