//! Writing the head of a replay script.

ghost use Rattle.std.specs.Prelude.{◌≡◌, ◌≤◌, ◌<◌, ◌+◌, ◌++◌, ◌∷◌, [], ℕ, List, length, map, true, false, slice_get, Some, None};
ghost use Rattle.std.specs.Fmt.{decimal, signed_decimal};
ghost use Rattle.std.specs.List.{flat_map};
ghost use Rattle.arrayvec.specs.ArrayVec.{array_vec_len};
ghost use Rattle.link_lines.specs.Words.{truth_text_of};
ghost use Rattle.link_node.specs.Config.{config_value, gate_value};
ghost use Rattle.link_script.specs.ReplayScript.{ended, gate_line, gate_lines, group_line, head_lines, node_line, quantum_line, to_line, version_line};

use link_lines::{LineBuf, put, put_decimal, put_endpoint, put_signed, put_truth};
use link_node::{Config, GateSetup};
use lk_base::{Endpoint, NodeId};

/// Puts the k-th line of the head of a script of version 2, from 0, in place of what the buffer held. False past the last one; nothing
/// changes then. Memory: none.
#[tactic(auto, unfolding(link_script::specs::ReplayScript::head_lines))]
pub fn write_head(line: &mut LineBuf, config: &Config, now: i64, k: u32) -> bool
    ensures there { (l : List ℕ) → slice_get (head_lines 2 (config_value config.now) now) k ≡ Some l
        → (result ≡ true) × (line.new.items ≡ ended l) }
    ensures past { slice_get (head_lines 2 (config_value config.now) now) k ≡ None
        → (result ≡ false) × (line.new ≡ line.old) }
{
    if k == 0 {
        write_version(line);
        return true;
    }
    if k == 1 {
        write_node(line, config, now);
        return true;
    }
    if k == 2 {
        write_group(line, config.group);
        return true;
    }
    if k == 3 {
        write_quantum(line, config.quantum);
        return true;
    }
    write_gates(line, &config.gates, k - 4)
}

// Puts the line of version 2 in place of what the buffer held.
fn write_version(line: &mut LineBuf)
    ensures { line.new.items ≡ ended (version_line 2) }
{
    line.clear();
    put(line, b"replay 2\n");
}

// Puts the line of the node in place of what the buffer held.
fn write_node(line: &mut LineBuf, config: &Config, now: i64)
    ensures { line.new.items ≡ ended (node_line (config_value config.now) now) }
{
    line.clear();
    put(line, b"node ");
    put_own_id(line, config.id);
    put(line, b" ");
    put_setup(line, config);
    put(line, b" ");
    put_signed(line, now);
    put(line, b"\n");
}

// An id, as its eight characters.
fn put_own_id(line: &mut LineBuf, id: NodeId)
    requires { array_vec_len line.old ≤ 1000 }
    ensures items { line.new.items ≡ line.old.items ++ id.0 }
    ensures len { array_vec_len line.new ≡ array_vec_len line.old + 8 }
{
    put(line, &id.0);
}

// The seed, the tempo, and whether starts are shared.
fn put_setup(line: &mut LineBuf, config: &Config)
    requires { array_vec_len line.old ≤ 1000 }
    ensures items { line.new.items ≡ line.old.items
        ++ (decimal config.now.seed ++ 32 ∷ (signed_decimal config.now.mpb ++ 32 ∷ truth_text_of config.now.sync)) }
    ensures len { array_vec_len line.new ≤ array_vec_len line.old + 44 }
{
    put_decimal(line, config.seed);
    put(line, b" ");
    put_signed(line, config.mpb);
    put(line, b" ");
    put_truth(line, config.sync);
}

// Puts the line of the group in place of what the buffer held.
fn write_group(line: &mut LineBuf, group: u16)
    ensures { line.new.items ≡ ended (group_line group) }
{
    line.clear();
    put(line, b"group ");
    put_decimal(line, u64::from(group));
    put(line, b"\n");
}

// Puts the line of the quantum in place of what the buffer held.
fn write_quantum(line: &mut LineBuf, quantum: i64)
    ensures { line.new.items ≡ ended (quantum_line quantum) }
{
    line.clear();
    put(line, b"quantum ");
    put_signed(line, quantum);
    put(line, b"\n");
}

// Puts the k-th of the lines of gates, from 0, in place of what the buffer held. False past the last one.
fn write_gates(line: &mut LineBuf, gates: &[GateSetup], k: u32) -> bool
    ensures there { (l : List ℕ) → slice_get (flat_map gate_lines (map gate_value gates.now)) k ≡ Some l
        → (result ≡ true) × (line.new.items ≡ ended l) }
    ensures past { slice_get (flat_map gate_lines (map gate_value gates.now)) k ≡ None
        → (result ≡ false) × (line.new ≡ line.old) }
{
    let mut left = k as usize;
    for gate in gates {
        let lines = 1 + gate.peers.len();
        if left < lines {
            write_gate(line, gate, left);
            return true;
        }
        left -= lines;
    }
    false
}

// Puts a gate's line, at 0, or that of a destination in place of what the buffer held.
fn write_gate(line: &mut LineBuf, gate: &GateSetup, at: usize)
    requires { at < length (gate_lines (gate_value gate.now)) }
    ensures { (l : List ℕ) → slice_get (gate_lines (gate_value gate.now)) at ≡ Some l → line.new.items ≡ ended l }
{
    if at == 0 {
        write_local(line, gate.local);
        return;
    }
    write_destination(line, gate.peers[at - 1]);
}

// Puts the line of a gate's own endpoint in place of what the buffer held.
fn write_local(line: &mut LineBuf, local: Endpoint)
    ensures { line.new.items ≡ ended (gate_line local) }
{
    line.clear();
    put(line, b"gate ");
    put_endpoint(line, local);
    put(line, b"\n");
}

// Puts the line of a destination in place of what the buffer held.
fn write_destination(line: &mut LineBuf, to: Endpoint)
    ensures { line.new.items ≡ ended (to_line to) }
{
    line.clear();
    put(line, b"to ");
    put_endpoint(line, to);
    put(line, b"\n");
}
