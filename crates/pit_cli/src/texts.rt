//! From the texts of the inputs to what they stand for.
ghost use Rattle.std.specs.Prelude.{◌≡◌, ◌++◌, ◌∷◌, [], All, IfOk, IfErr, OnOk, MatchResult, map, option_map};
ghost use Rattle.pit_opening.specs.Openings.{IsOpeningIn};
ghost use Rattle.pit_step.specs.Steps.{IsResultOf, each};
ghost use Rattle.pit_step.specs.Inputs.{IsModel, IsModelFault, IsOrder, IsOrderFault};
ghost use Rattle.pit_cli.specs.Texts.{ArePlacesOf, IsPlacedFault, IsScriptOf, IsScriptFault, pit_judged, script_judged, scripts_judged, texts_judged};

use crate::plan_input::PlanInput;
use pit_model::{Builder, Instance};
use pit_opening::{Opening, opening_of};
use pit_script::{Benches, Script, ScriptCause};
use pit_step::{CliFault, builder_of, built, ordered, placed};
use std::alloc::{Allocator, Global};

/// What the texts stand for.
#[derive(Drop)]
pub struct Inputs<A: Allocator + Copy + Drop> {
    /// The pit of the model, the precedences and the places.
    pub pit: Instance<A>,
    /// What the plan begins with.
    pub opening: Opening<A>,
    /// On this pit, in the order of their planners.
    pub scripts: Vec<Script<A>, A>,
}

/// Parses the texts in order. Each is freed once it is parsed, except the scripts, which are freed together.
pub fn parsed<A: Allocator + Copy + Drop>(
    alloc: A,
    json: Global,
    input: PlanInput<A>,
) -> Result<Inputs<A>, CliFault>
    ensures result { MatchResult result
        (λ inputs. (texts_judged input).Gives tt ((inputs.pit, inputs.opening), map (λ script. script.jobs) inputs.scripts.items))
        ((texts_judged input).Fails tt) }
    ensures fits { IfOk result (λ inputs. IsOpeningIn inputs.pit inputs.opening) }
    ensures pits { IfOk result (λ inputs. All (λ script. script.pit ≡ inputs.pit) inputs.scripts.items) }
{
    let PlanInput {
        model,
        precedence,
        blocks,
        beginning,
        scripts,
    } = input;
    let pit = match pit_of(alloc, model, precedence, blocks) {
        Ok(pit) => pit,
        Err(fault) => return Err(fault),
    };
    let opening = match opening_of(alloc, json, beginning, &pit) {
        Ok(opening) => opening,
        Err(fault) => return Err(fault),
    };
    let scripts = match scripts_of(alloc, &scripts, &pit) {
        Ok(scripts) => scripts,
        Err(fault) => return Err(fault),
    };
    Ok(Inputs {
        pit,
        opening,
        scripts,
    })
}

/// The pit of a model, of precedences, and of places where they are given.
fn pit_of<A: Allocator + Copy + Drop>(
    alloc: A,
    model: Vec<u8, A>,
    precedence: Vec<u8, A>,
    blocks: Option<Vec<u8, A>>,
) -> Result<Instance<A>, CliFault>
    ensures { IsResultOf (pit_judged model.items precedence.items (option_map (λ bytes. bytes.items) blocks)) tt result }
{
    let bare = bare_pit(alloc, model)?;
    let given = ordered_pit(alloc, precedence, bare)?;
    placed_pit(given, blocks)
}

fn bare_pit<A: Allocator + Copy + Drop>(alloc: A, model: Vec<u8, A>) -> Result<Builder<A>, CliFault>
    ensures { MatchResult result (IsModel model.items) (IsModelFault model.items) }
{
    builder_of(alloc, &model)
}

fn ordered_pit<A: Allocator + Copy + Drop>(
    alloc: A,
    precedence: Vec<u8, A>,
    given: Builder<A>,
) -> Result<Builder<A>, CliFault>
    ensures { MatchResult result (IsOrder given precedence.items) (IsOrderFault given precedence.items) }
{
    ordered(alloc, &precedence, given)
}

fn placed_pit<A: Allocator + Copy + Drop>(
    given: Builder<A>,
    blocks: Option<Vec<u8, A>>,
) -> Result<Instance<A>, CliFault>
    ensures { let places = option_map (λ bytes. bytes.items) blocks in
        MatchResult result (ArePlacesOf given places) (IsPlacedFault given places) }
{
    let Some(bytes) = blocks else {
        return built(given);
    };
    let builder = placed(&bytes, given)?;
    built(builder)
}

/// The scripts of texts, on one pit. The first fault is answered.
fn scripts_of<A: Allocator + Copy + Drop>(
    alloc: A,
    texts: &[Vec<u8, A>],
    pit: &Instance<A>,
) -> Result<Vec<Script<A>, A>, CliFault>
    ensures result { let judged = scripts_judged (map (λ bytes. bytes.items) texts.now) pit.now in
        MatchResult result (λ scripts. judged.Gives tt (map (λ script. script.jobs) scripts.items)) (judged.Fails tt) }
    ensures pits { IfOk result (λ scripts. All (λ script. script.pit ≡ pit.now) scripts.items) }
{
    let Ok(benches) = Benches::of(alloc, pit) else {
        return Err(CliFault::NoMemory);
    };
    each_script(alloc, texts, &benches)
}

/// The same, on the benches of a pit.
fn each_script<A: Allocator + Copy + Drop>(
    alloc: A,
    texts: &[Vec<u8, A>],
    benches: &Benches<A>,
) -> Result<Vec<Script<A>, A>, CliFault>
    ensures result { let judged = each (script_judged benches.now) 1 (map (λ bytes. bytes.items) texts.now) in
        MatchResult result (λ scripts. judged.Gives tt (map (λ script. script.jobs) scripts.items)) (judged.Fails tt) }
    ensures pits { IfOk result (λ scripts. All (λ script. script.pit ≡ benches.now) scripts.items) }
{
    let mut scripts = Vec::new(alloc);
    for (i, text) in texts.iter().enumerate() {
        let script = script_of(alloc, i as u64 + 1, text, benches)?;
        push_script(&mut scripts, script)?;
    }
    Ok(scripts)
}

fn push_script<A: Allocator + Copy + Drop>(
    scripts: &mut Vec<Script<A>, A>,
    script: Script<A>,
) -> Result<(), CliFault>
    ensures ok { OnOk result (scripts.new.items ≡ scripts.old.items ++ script ∷ []) }
    ensures err { IfErr result (λ fault. fault ≡ CliFault.NoMemory) }
{
    match scripts.push(script) {
        Ok(()) => Ok(()),
        Err(_) => Err(CliFault::NoMemory),
    }
}

/// The script of a text, which has this number.
fn script_of<A: Allocator + Copy + Drop>(
    alloc: A,
    number: u64,
    text: &[u8],
    benches: &Benches<A>,
) -> Result<Script<A>, CliFault>
    ensures result { MatchResult result (λ script. IsScriptOf benches.now text.now script.jobs) (IsScriptFault benches.now number text.now) }
    ensures pit { IfOk result (λ script. script.pit ≡ benches.now) }
{
    match Script::parse_on(alloc, text, benches) {
        Ok(script) => Ok(script),
        Err(error) if error.cause == ScriptCause::NoMemory => Err(CliFault::NoMemory),
        Err(error) => Err(CliFault::Script { number, error }),
    }
}
