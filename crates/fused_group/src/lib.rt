// Document 01, "The fused circuit file": the records of a joined group, written at the start of a lent buffer: a guard for each member, a pick for each argument place,
// the operation. Document 02, C-18: no pick where the members' wires are equal, no guards where no pick remains.
#![tactic(auto)]

ghost use Rattle.std.specs.Prelude.{◌≡◌, cond, ◌∷◌, [], map, ◌+◌, ◌*◌, ◌<◌, ◌≤◌, length, get_or};
ghost use Rattle.base.specs.Buffers.{over};
ghost use Rattle.base.specs.SettingLists.{conditions_in, Lists};
ghost use Rattle.file.specs.Limits.{most_wires};
ghost use Rattle.file.specs.Records.{pair_wires};
ghost use Rattle.file.specs.CircuitFile.{wires_bytes};
ghost use Rattle.fused.specs.Emission.{one_wire};
ghost use Rattle.fused_gate.specs.Emitted.{wire_by, Written};
ghost use Rattle.fused_group.specs.Decisions.{has_pick, count_in};
ghost use Rattle.fused_group.specs.Joined.{argument_at};
ghost use Rattle.fused_group.specs.Joints.{members, values_for, pairs_for, guard_for, guards_for, pick_for, kept_for, place_for, picks_for, read_for, operation_for};
ghost use Rattle.fused_group.specs.Joints.{fused_for, records_for, LiesIn, GuardedIn, PairedIn, JoinableIn, PairedFrom, FusingFrom, JoinWritableIn, DecidedIn};
ghost use Rattle.base.specs.SetsHeld.{set_of};

use base::{ConditionList, Set};
use circuit::{Circuit, GateId};
use file::WireId;
use fused_gate::Wiring;

// The codes of the records that stand for no gate.
const PICK: u8 = 0x31;

const GUARD: u8 = 0x32;

// Which of the two argument places of a joined group have a pick: those at which its members' wires differ.
#[derive(Clone, Copy)]
pub struct Picks {
    pub first: bool,
    pub second: bool,
}

impl Picks {
    // Whether there is a pick, and so guards.
    pub fn any(self) -> bool
        ensures { result ≡ has_pick self }
    {
        self.first || self.second
    }
}

// A pair of a pick: the wire of the guard and the wire of the value.
fn put_pair(out: &mut [u8], guarding: WireId, value: WireId)
    requires { 4 ≤ length out.old }
    ensures { out.new ≡ over (wires_bytes (guarding.0 ∷ value.0 ∷ [])) out.old }
{
    base_words::put16(out, guarding.0);
    base_words::put16(&mut out[2..], value.0);
}

// A joined group: the plan and the place in it at which the group lies, the circuit whose gates it joins, and the wires that stand for gates. What is asked
// of it has names (LiesIn, GuardedIn, PairedIn ..) and is no field: each method asks another part, and some ask it of an argument place.
#[derive(Clone, Copy)]
pub struct Joint<'a> {
    pub plan: &'a [u8],
    pub at: usize,
    pub circuit: &'a Circuit,
    pub wiring: Wiring<'a>,
}

impl Joint<'_> {
    // How many members it has.
    pub fn size(self) -> u8
        requires { self.at < length self.plan.now }
        ensures { result ≡ get_or self.entry.plan.now self.entry.at 0 }
    {
        self.plan[self.at]
    }

    // Member i.
    pub fn member(self, i: usize) -> GateId
        requires { LiesIn self × (i < get_or self.plan.now self.at 0) }
        ensures { result.0 ≡ get_or (members self.entry) i 0 }
    {
        plan_member::member(self.plan, self.at, i)
    }

    // Argument k of member i, a gate.
    fn argument(self, i: usize, k: usize) -> GateId
        requires { PairedIn self k × (i < get_or self.plan.now self.at 0) }
        ensures { result.0 ≡ argument_at self.entry.circuit.now.quads (get_or (members self.entry) i 0) k }
    {
        let g = self.member(i).index();
        circuit_quads::argument(&self.circuit.quads, 4 * g + 1 + k)
    }

    // The wire that stands for it.
    fn wire(self, i: usize, k: usize) -> WireId
        requires { PairedIn self k × (i < get_or self.plan.now self.at 0) }
        ensures { result.0 ≡ get_or (values_for self.entry k) i 0 }
    {
        self.wiring.of(self.argument(i, k))
    }

    // The wires of the conditions of a list.
    fn put_rested(self, out: &mut [u8], list: ConditionList)
        requires { ((2 * length (conditions_in list) ≤ length out.old) × GuardedIn self) × Lists list }
        ensures { out.new ≡ over (wires_bytes (map (λ t. wire_by self.entry.wiring (get_or self.entry.circuit.now.conditions t 0)) (conditions_in list))) out.old }
    {
        for i in 0..list.count as usize {
            let t = list.at[i] as usize;
            let w = self.wiring.of(GateId(self.circuit.conditions[t]));
            base_words::put16(&mut out[2 * i..], w.0);
        }
    }

    // The guard of a member with the precondition s; gives its bytes.
    fn put_guard(self, out: &mut [u8], s: Set) -> usize
        requires { (length (guard_for self (set_of s)) ≤ length out.old) × GuardedIn self }
        ensures { Written (guard_for self.entry (set_of s)) result out.old out.new }
    {
        let r = base_settings::rested(s);
        let d = r.count;
        fused_gate::put_short(out, GUARD, d);
        self.put_rested(&mut out[2..], r);
        let n = 2 + 2 * (d as usize);
        base_settings::put_bytes(&mut out[n..], base_settings::table(s, r));
        n + file::WRITTEN_TABLE
    }

    // The guards of a group, members rising; gives their bytes.
    fn put_guards(self, out: &mut [u8]) -> usize
        requires { (length (guards_for self) ≤ length out.old) × (LiesIn self × GuardedIn self) }
        ensures { Written (guards_for self.entry) result out.old out.new }
    {
        let mut n: usize = 0;
        for i in 0..self.size() as usize {
            let m = self.member(i);
            let s = base_settings::load(&self.circuit.needs, m.index());
            let k = self.put_guard(&mut out[n..], s);
            n = n + k;
        }
        n
    }

    // The pairs for argument place k, members rising: the guards are the wires from `first` on.
    fn put_pairs(self, out: &mut [u8], first: WireId, k: usize)
        requires { (4 * get_or self.plan.now self.at 0 ≤ length out.old) × PairedFrom self first.0 k }
        ensures { out.new ≡ over (wires_bytes (pair_wires (pairs_for self.entry first.0 k))) out.old }
    {
        for i in 0..self.size() as usize {
            let w = self.wire(i, k);
            put_pair(&mut out[4 * i..], WireId(first.0 + (i as u16)), w);
        }
    }

    // The pick for argument place k; gives its bytes.
    fn put_pick(self, out: &mut [u8], first: WireId, k: usize) -> usize
        requires { (2 + 4 * get_or self.plan.now self.at 0 ≤ length out.old) × PairedFrom self first.0 k }
        ensures counted { result ≡ 2 + 4 * get_or self.entry.plan.now self.entry.at 0 }
        ensures written { out.new ≡ over (pick_for self.entry first.0 k) out.old }
    {
        let size = self.size();
        fused_gate::put_short(out, PICK, size);
        self.put_pairs(&mut out[2..], first, k);
        2 + 4 * (size as usize)
    }

    // Whether all members have the same wire at argument place k: each is compared with the first.
    fn one_wire(self, k: usize) -> bool
        requires { PairedIn self k × (0 < get_or self.plan.now self.at 0) }
        ensures { result ≡ one_wire (values_for self.entry k) }
    {
        let common = self.wire(0, k);
        for i in 1..self.size() as usize {
            if self.wire(i, k) != common {
                return false;
            }
        }
        true
    }

    // The one decision which picks a joined group has: measuring and writing both go by it.
    pub fn picks(self) -> Picks
        requires { JoinableIn self }
        ensures { DecidedIn self.entry result }
    {
        let first = self.one_wire(0);
        let second = self.one_wire(1);
        Picks {
            first: !first,
            second: !second,
        }
    }

    // How many records it has: the operation, its picks, and a guard for each member where it has a pick.
    pub fn records(self, picks: Picks) -> u16
        requires { self.at < length self.plan.now }
        ensures { result ≡ count_in (get_or self.entry.plan.now self.entry.at 0) picks }
    {
        if picks.any() {
            u16::from(self.size()) + u16::from(picks.first) + u16::from(picks.second) + 1
        } else {
            1
        }
    }

    // The guards, or nothing where there is no pick to read them; gives their bytes.
    fn put_kept(self, out: &mut [u8], picks: Picks) -> usize
        requires { (length (kept_for self picks) ≤ length out.old) × (LiesIn self × GuardedIn self) }
        ensures { Written (kept_for self.entry picks) result out.old out.new }
    {
        if picks.any() { self.put_guards(out) } else { 0 }
    }

    // The pick for argument place k, or nothing where it has none; gives its bytes.
    fn put_place(self, out: &mut [u8], first: WireId, k: usize, picked: bool) -> usize
        requires { (length (place_for self first.0 k picked) ≤ length out.old) × PairedFrom self first.0 k }
        ensures { Written (place_for self.entry first.0 k picked) result out.old out.new }
    {
        if picked {
            self.put_pick(out, first, k)
        } else {
            0
        }
    }

    // The picks, the first argument place and then the second; gives their bytes.
    fn put_picks(self, out: &mut [u8], first: WireId, picks: Picks) -> usize
        requires { (length (picks_for self first.0 picks) ≤ length out.old) × FusingFrom self first.0 }
        ensures { Written (picks_for self.entry first.0 picks) result out.old out.new }
    {
        let n = self.put_place(out, first, 0, picks.first);
        n + self.put_place(&mut out[n..], first, 1, picks.second)
    }

    // What the operation reads at argument place k: its pick, which is wire `next`, or the wire that all members have.
    fn argument_wire(self, k: usize, picked: bool, next: WireId) -> WireId
        requires { PairedIn self k × (0 < get_or self.plan.now self.at 0) }
        ensures { result.0 ≡ read_for self.entry k picked next.0 }
    {
        if picked { next } else { self.wire(0, k) }
    }

    // The operation, whose wire stands for every member; the picks follow the guards. Gives its bytes.
    fn put_operation(self, out: &mut [u8], first: WireId, picks: Picks) -> usize
        requires { (length (operation_for self first.0 picks) ≤ length out.old) × FusingFrom self first.0 }
        ensures { Written (operation_for self.entry first.0 picks) result out.old out.new }
    {
        let i = self.member(0).index();
        let next = first.0 + u16::from(self.size());
        let a = self.argument_wire(0, picks.first, WireId(next));
        let after = next + u16::from(picks.first);
        let b = self.argument_wire(1, picks.second, WireId(after));
        fused_gate::put_binary(out, self.circuit.quads[4 * i] as u8, a, b);
        5
    }

    // The picks and the operation that reads them; gives their bytes.
    fn put_fused(self, out: &mut [u8], first: WireId, picks: Picks) -> usize
        requires { (length (fused_for self first.0 picks) ≤ length out.old) × FusingFrom self first.0 }
        ensures { Written (fused_for self.entry first.0 picks) result out.old out.new }
    {
        let n = self.put_picks(out, first, picks);
        n + self.put_operation(&mut out[n..], first, picks)
    }

    // Its records, the first of them being wire `first`: its guards, its picks, which `picks` says, the operation. Gives their bytes.
    pub fn put(self, out: &mut [u8], first: WireId, picks: Picks) -> usize
        requires { (length (records_for self first.0) ≤ length out.old) × (JoinWritableIn self × (first.0 ≤ most_wires) × DecidedIn self picks) }
        ensures { Written (records_for self.entry first.0) result out.old out.new }
    {
        let n = self.put_kept(out, picks);
        n + self.put_fused(&mut out[n..], first, picks)
    }
}
