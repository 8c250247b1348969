//! Laws of scripts, of loads and of pairs, for what stands above: to call one is to know it.

ghost use Rattle.std.specs.Prelude.{◌≡◌, ◌≤◌, ◌<◌, ◌+◌, ◌^◌, ℕ, ℤ, Bool, List, length};
ghost use Rattle.link_node.specs.Config.{ConfigValue, GateValue};
ghost use Rattle.link_node.specs.Event.{EventValue};
ghost use Rattle.link_node.specs.Runs.{AreFitting};
ghost use Rattle.link_text.specs.ControlLine.{AreControlLines};
ghost use Rattle.link_lines.specs.Lines.{lines_of};
ghost use Rattle.link_text.specs.LiveHead.{IsFirstHeadFault, IsHeadText};
ghost use Rattle.link_script.specs.LiveScript.{Command, IsFirstLiveFault, IsLiveScript, IsLiveText, SaysOneSetup};
ghost use Rattle.link_text.specs.Load.{HasOneLoadText};
ghost use Rattle.link_text.specs.PairLine.{IsPairLine};
ghost use Rattle.link_script.specs.ReplayScript.{IsHead, IsScriptOf, IsFirstFault, IsNoScript, AreSayable, SaysFrom, written_script_of};
ghost use Rattle.link_script.specs.declared.live_script.AppCommand.{AppCommand};
ghost use Rattle.link_script.specs.declared.live_script.BlockCommand.{BlockCommand};

/// What is written for a node and its events is a script of version 2, of just that node and those events.
pub fn written_scripts_are_read()
    ensures { (config : ConfigValue) (now : ℤ) (es : List EventValue) → IsHead config now → AreSayable (length config.gates) 0 es
        → IsScriptOf (written_script_of config now es) 2 config now es }
{}

/// A text says one version, one node and one list of events at most, and one line of a text outside the grammar is the first at fault.
pub fn one_script()
    ensures config { (text : List ℕ) (v w : ℕ) (c d : ConfigValue) (now at : ℤ) (es fs : List EventValue)
        → IsScriptOf text v c now es → IsScriptOf text w d at fs → (v ≡ w) × (c ≡ d) × (now ≡ at) × (es ≡ fs) }
    ensures fault { (text : List ℕ) (k j : ℕ) → IsFirstFault text k → IsFirstFault text j → k ≡ j }
    ensures no_fault { (text : List ℕ) (k v : ℕ) (c : ConfigValue) (now : ℤ) (es : List EventValue) → IsFirstFault text k → IsScriptOf text v c now es → ⊥ }
{}

/// A node can take the events of a script, which are no more than its text has bytes.
pub fn scripts_fit_nodes()
    ensures fit { (gates audio app at : ℕ) (text : List ℕ) (es : List EventValue) → SaysFrom gates audio text at es
        → app + length es < 2 ^ 60 → AreFitting gates app audio es }
    ensures few { (gates audio at : ℕ) (text : List ℕ) (es : List EventValue) → SaysFrom gates audio text at es
        → length es ≤ length text }
{}

/// What is told of a load, whose commits follow the states that its node shows, goes by its seed and its number of events.
pub fn one_load_text()
    ensures { HasOneLoadText }
{}

/// A text says one setup and one list of commands at most, so one list of each kind, and one line of a text outside the grammar of live
/// scripts is the first at fault.
pub fn one_live_script()
    ensures script { (text : List ℕ) (m n : ℤ) (s t : Bool) (gs hs : List GateValue) (cs ds : List Command)
        → IsLiveScript (lines_of text) m s gs cs → IsLiveScript (lines_of text) n t hs ds → (m ≡ n) × (s ≡ t) × (gs ≡ hs) × (cs ≡ ds) }
    ensures lists { (text : List ℕ) → SaysOneSetup text }
    ensures fault { (text : List ℕ) (k j : ℕ) → IsFirstLiveFault text k → IsFirstLiveFault text j → k ≡ j }
    ensures no_fault { (text : List ℕ) (k : ℕ) (m : ℤ) (s : Bool) (gs : List GateValue) (apps : List AppCommand)
        (blocks : List BlockCommand) → IsFirstLiveFault text k → IsLiveText text m s gs apps blocks → ⊥ }
{}

/// A line says one pair of numbers at most.
pub fn one_pair()
    ensures { (line : List ℕ) (first second third fourth : ℤ) → IsPairLine line first second → IsPairLine line third fourth
        → (first ≡ third) × (second ≡ fourth) }
{}

/// A text says one setup at most as a head without commands, and one line of a text outside that grammar is the first at fault.
pub fn one_live_head()
    ensures head { (text : List ℕ) (m n : ℤ) (s t : Bool) (gs hs : List GateValue) → IsHeadText text m s gs → IsHeadText text n t hs
        → (m ≡ n) × (s ≡ t) × (gs ≡ hs) }
    ensures fault { (text : List ℕ) (k j : ℕ) → IsFirstHeadFault text k → IsFirstHeadFault text j → k ≡ j }
    ensures no_fault { (text : List ℕ) (k : ℕ) (m : ℤ) (s : Bool) (gs : List GateValue) → IsFirstHeadFault text k → IsHeadText text m s gs → ⊥ }
{}

/// A client's line asks for one thing at most, and a long line for none.
pub fn control_lines()
    ensures { AreControlLines }
{}
