// What is derived from a chart's tables when the chart is loaded.
#![tactic(auto)]

ghost use Rattle.std.specs.Prelude.{◌≤◌, vec_capacity};
ghost use Rattle.groups.specs.Lookup.{HasRoom};

use facts::StateFacts;
use groups::Groups;

mod access;
mod column;
mod facts;
mod filling;

/// What is derived from a chart's tables. There is room for every chart.
#[derive(Drop)]
pub struct Derived {
    // By state.
    states: Vec<StateFacts>,
    // By graph: its initial state.
    initials: Vec<u16>,
    // By transition: whether it is a chain transition.
    chain: Vec<bool>,
    // By state: the transitions from it, and those to it.
    outgoing: Groups,
    incoming: Groups,
    // By graph: its states.
    members: Groups,
    // By state: the graphs that it owns.
    owned: Groups,
    // The keys of the groups that were filled last. They have their room here, since loading takes no memory.
    keys: Vec<u16>,
    ghost state_room: { 256 ≤ vec_capacity states },
    ghost initial_room: { 128 ≤ vec_capacity initials },
    ghost chain_room: { 512 ≤ vec_capacity chain },
    ghost key_room: { 512 ≤ vec_capacity keys },
    ghost outgoing_room: { HasRoom outgoing 256 512 },
    ghost incoming_room: { HasRoom incoming 256 512 },
    ghost member_room: { HasRoom members 128 256 },
    ghost owned_room: { HasRoom owned 256 128 },
}
