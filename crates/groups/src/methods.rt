// Groups are made, filled, cleared and looked up.
ghost use Rattle.std.specs.Prelude.{◌≡◌, ℕ, ◌+◌, ◌<◌, ◌≤◌, [], ◌++◌, length, IfOk, OnOk, OnErr, IsOk, ◌↔◌, if◌then◌else◌, vec_len, vec_capacity, nat_lt};
ghost use Rattle.std.specs.Result.{IsErrOf};
ghost use Rattle.groups.specs.Filling.{IsFilled, SameRoom};
ghost use Rattle.groups.specs.Numbers.{with_key, start_of};
ghost use Rattle.groups.specs.Lookup.{group, IsEmpty, room_for_keys, room_for_numbers, HasRoom};

use crate::{FillError, Groups};
use std::alloc::{AllocError, Global};

impl Groups {
    /// Empty groups with room for so many keys and numbers.
    pub fn new(heap: Global, keys: usize, numbers: usize) -> Result<Groups, AllocError>
        ensures { IfOk result (λ g. ((k : ℕ) → group g k ≡ []) × HasRoom g keys numbers) }
    {
        let starts = Vec::with_capacity(heap, keys)?;
        let members = Vec::with_capacity(heap, numbers)?;
        Ok(Groups { starts, members })
    }

    /// Groups the numbers 0, 1, .. below the length of `keys`, each under its key, for the keys below `size`.
    /// More than 65,535 numbers are an error; fewer are one only where there is neither room for them nor memory to make it. After an error no group has a member.
    pub fn fill(&mut self, size: usize, keys: &[u16]) -> Result<(), FillError>
        ensures ok { OnOk result ((k : ℕ) → group self.new k ≡ (if nat_lt k size then with_key keys.now k else [])) }
        ensures err { OnErr result ((k : ℕ) → group self.new k ≡ []) }
        ensures too_many { IsErrOf result FillError.TooMany ↔ (65535 < length keys.now) }
        ensures succeeds { HasRoom self.old size (length keys.now) → length keys.now < 65536 → IsOk result }
        ensures room { HasRoom self.new (room_for_keys self.old) (room_for_numbers self.old) }
    {
        self.clear();
        if keys.len() > usize::from(u16::MAX) {
            return Err(FillError::TooMany);
        }
        self.starts.reserve(size)?;
        self.members.reserve(keys.len())?;
        // Over numbers: before this loop nothing has an entry for each key.
        for key in 0..size {
            self.add_group(keys, key);
        }
        Ok(())
    }

    /// No group has a member.
    pub fn clear(&mut self)
        ensures groups { (k : ℕ) → group self.new k ≡ [] }
        ensures room { HasRoom self.new (room_for_keys self.old) (room_for_numbers self.old) }
        ensures empty { IsEmpty self.new }
    {
        self.starts.clear();
        self.members.clear();
    }

    /// The numbers with this key.
    pub fn of(&self, key: usize) -> &[u16]
        ensures { result.now ≡ group self.now key }
    {
        let start = self.start(key);
        let end = self.start(key.saturating_add(1));
        &self.members[start..end]
    }

    // Where the group of the key starts.
    fn start(&self, key: usize) -> usize
        ensures { result ≡ start_of self.now.starts.items self.now.members.items key }
    {
        self.starts
            .get(key)
            .map_or(self.members.len(), |start| usize::from(*start))
    }

    // The group of the key, behind those of the keys below it.
    fn add_group(&mut self, keys: &[u16], key: usize)
        requires filled { IsFilled keys.now key self.old }
        requires room { HasRoom self.old (key + 1) (length keys.now) }
        requires few { length keys.now < 65536 }
        ensures filled { IsFilled keys.now (key + 1) self.new }
        ensures room { SameRoom self.old self.new }
    {
        // There are at most 65,535 numbers, so nothing is lost.
        self.starts.push_reserved(self.members.len() as u16);
        push_with_key(&mut self.members, keys, key);
    }
}

// The numbers with the key, behind the others. There is room for them, so this takes no memory, as `extend` might.
fn push_with_key(members: &mut Vec<u16>, keys: &[u16], key: usize)
    requires { (vec_len members.old + length (with_key keys.now key) ≤ vec_capacity members.old) × (length keys.now < 65536) }
    ensures items { members.new.items ≡ members.old.items ++ with_key keys.now key }
    ensures room { vec_capacity members.new ≡ vec_capacity members.old }
{
    for (number, of) in keys.iter().enumerate() {
        if usize::from(*of) == key {
            // There are at most 65,535 numbers, so nothing is lost.
            members.push_reserved(number as u16);
        }
    }
}
