//! Laws of name maps: how they begin and go on. Each function has no body: its clauses are the
//! laws.
ghost use Rattle.std.specs.Prelude.{ℕ, false, List};
ghost use Rattle.model_loop.specs.Parts.{Handle, Parts};
ghost use Rattle.model_loop.specs.Handles.{revoke, due};
ghost use Rattle.model_loop.specs.Start.{no_parts};
ghost use Rattle.aio_task.specs.View.{empty};
ghost use Rattle.aio_task.specs.Keeps.{Known, NameMap, Keeps, Extends, Knows};

/// Parts that are new stand for the machine's, where nothing has happened.
pub fn new_parts_are_kept()
    ensures { (known : ℕ → Known) (profile : ℕ)
        → Keeps (record { known = known; gone = λ id. false; bar = 0 }) (empty profile) no_parts }
{}

/// Where the machine gives no tag, a name map stays as it is.
pub fn name_maps_stay()
    ensures revoke { (t : NameMap) (p : Parts) (tag : ℕ) → Extends p t (revoke tag p) t }
    ensures due { (t : NameMap) (p : Parts) → Extends p t (due p) t }
    ensures time { (t : NameMap) (p : Parts) (now : ℕ) → Extends p t (record p { time = now }) t }
    ensures run { (t : NameMap) (p : Parts) (handles : List Handle)
        → Extends p t (record p { pending = handles }) t }
{}

/// What a layer above keeps by a tag stays right.
pub fn name_maps_go_on()
    ensures same { (t : NameMap) (p : Parts) → Extends p t p t }
    ensures on { (t u w : NameMap) (p q r : Parts) → Extends p t q u → Extends q u r w
        → Extends p t r w }
    ensures known { (t u : NameMap) (p q : Parts) (tag : ℕ) (it : Known)
        → Extends p t q u → Knows t p tag it → Knows u q tag it }
{}
