ghost use Rattle.std.specs.Prelude.{◌≡◌, ℕ, List, [], ◌∷◌, ◌++◌, Option, IfOk, OnOk, MatchOption, map, option_map};
ghost use Rattle.cmdwords.specs.Given.{said};
ghost use Rattle.prucc.specs.Job.{Asks, IsTable, texts, values_of, input, inputs_of, inputs, events_name, trace_name};

use cmdwords::{Mode, Value, read};
use corestep::Table;
use modefiles::{Input, Name};
use prunum::Memory;
use std::alloc::Global;

/// The most bytes of a source.
const MAX_SOURCE: u32 = 65_536;

/// The most bytes of an executable, and of a script.
const MAX_EXECUTABLE: u32 = 1_048_576;

const MAX_SCRIPT: u32 = 1_048_576;

/// A run of both cores: the file of each, the script, the number of cycles, and the name with which the files that are written begin.
#[derive(Debug, Drop)]
pub struct BothCores {
    pub zero: Name,
    pub one: Name,
    pub script: Name,
    pub cycles: u32,
    pub out: Name,
}

/// What the words ask for.
#[derive(Debug, Drop)]
pub enum Job {
    /// A run of two sources: `run A B H N OUT`.
    Run(BothCores),
    /// A run of two executables by a cycle table: `sim E0 E1 H N OUT`.
    Sim { cores: BothCores, table: Table },
}

/// The run of both cores that stands at the places, if these are such a run's.
fn both_cores(alloc: Global, values: &[Value<'_>]) -> Result<Option<BothCores>, Memory>
    ensures { IfOk result (λ o. MatchOption o ((r : BothCores) → map said values.now ≡ values_of r → ⊥)
        (λ cores. map said values.now ≡ values_of cores)) }
{
    let [
        Value::File(zero),
        Value::File(one),
        Value::File(script),
        Value::Number(cycles),
        Value::File(out),
    ] = values
    else {
        return Ok(None);
    };
    Ok(Some(BothCores {
        zero: Name::of(alloc, *zero)?,
        one: Name::of(alloc, *one)?,
        script: Name::of(alloc, *script)?,
        cycles: *cycles,
        out: Name::of(alloc, *out)?,
    }))
}

/// The cycle table of this number, or the first one where none is given.
fn table_of(number: Option<&str>) -> Option<Table>
    ensures { MatchOption result ((t : Table) → IsTable (option_map (λ text. text.now) number.entry) t → ⊥)
        (λ t. IsTable (option_map (λ text. text.now) number.entry) t) }
{
    match number {
        None => Some(Table::One),
        Some(text) if text == "1" => Some(Table::One),
        Some(text) if text == "2" => Some(Table::Two),
        Some(_) => None,
    }
}

/// The cycle table that the value of the one option means.
fn table_in(options: &[Option<&str>]) -> Option<Table>
    ensures { MatchOption result ((o : Option (List ℕ)) → (t : Table) → map (option_map (λ text. text.now)) options.now ≡ o ∷ []
        → IsTable o t → ⊥)
        (λ t. (o : Option (List ℕ)) × (map (option_map (λ text. text.now)) options.now ≡ o ∷ []) × IsTable o t) }
{
    let [option] = options else {
        return None;
    };
    table_of(*option)
}

/// The run of two sources that the words ask for, if they do.
fn run_asked(alloc: Global, words: &[String]) -> Result<Option<BothCores>, Memory>
    ensures { IfOk result (λ o. MatchOption o ((r : BothCores) → Asks (texts words.now) (Job.Run r) → ⊥)
        (λ r. Asks (texts words.now) (Job.Run r))) }
{
    let Some(given) = read(alloc, Mode::Run.form(), words)? else {
        return Ok(None);
    };
    let cores = both_cores(alloc, given.values.as_slice())?;
    Ok(cores)
}

/// The run of two executables that the words ask for, if they do.
fn sim_asked(alloc: Global, words: &[String]) -> Result<Option<(BothCores, Table)>, Memory>
    ensures { IfOk result (λ o. MatchOption o ((r : BothCores) → (t : Table) → Asks (texts words.now) (Job.Sim r t) → ⊥)
        (λ asked. Asks (texts words.now) (Job.Sim asked.0 asked.1))) }
{
    let Some(given) = read(alloc, Mode::Sim.form(), words)? else {
        return Ok(None);
    };
    let Some(table) = table_in(given.options.as_slice()) else {
        return Ok(None);
    };
    let Some(cores) = both_cores(alloc, given.values.as_slice())? else {
        return Ok(None);
    };
    Ok(Some((cores, table)))
}

/// A file that is read.
fn input(alloc: Global, name: &Name, most: u32) -> Result<Input, Memory>
    ensures { IfOk result (λ made. made ≡ input name.now most) }
{
    Ok(Input {
        name: Name::of(alloc, name.as_str())?,
        most,
    })
}

impl BothCores {
    /// The name of the file of events.
    pub fn events_name(&self, alloc: Global) -> Result<Name, Memory>
        ensures { IfOk result (λ name. name ≡ events_name self.now) }
    {
        let out = self.out.as_str();
        Ok(Name::new(format!(in alloc; "{out}.events")?))
    }

    /// The name of the file of traces.
    pub fn trace_name(&self, alloc: Global) -> Result<Name, Memory>
        ensures { IfOk result (λ name. name ≡ trace_name self.now) }
    {
        let out = self.out.as_str();
        Ok(Name::new(format!(in alloc; "{out}.trace")?))
    }

    /// The files of both cores, of so many bytes at most, and the script.
    fn inputs(&self, alloc: Global, most: u32) -> Result<Vec<Input>, Memory>
        ensures { IfOk result (λ made. made.items ≡ inputs_of self.now most) }
    {
        let mut inputs = Vec::new(alloc);
        push(&mut inputs, input(alloc, &self.zero, most)?)?;
        push(&mut inputs, input(alloc, &self.one, most)?)?;
        push(&mut inputs, input(alloc, &self.script, MAX_SCRIPT)?)?;
        Ok(inputs)
    }
}

fn push(inputs: &mut Vec<Input>, input: Input) -> Result<(), Memory>
    ensures { OnOk result (inputs.new.items ≡ inputs.old.items ++ (input ∷ [])) }
{
    match inputs.push(input) {
        Ok(()) => Ok(()),
        Err(_) => Err(Memory),
    }
}

impl Job {
    /// What the words ask for, if they have the form of a mode.
    pub fn from_words(alloc: Global, words: &[String]) -> Result<Option<Job>, Memory>
        ensures { IfOk result (λ o. MatchOption o ((job : Job) → Asks (texts words.now) job → ⊥) (λ job. Asks (texts words.now) job)) }
    {
        if let Some(cores) = run_asked(alloc, words)? {
            return Ok(Some(Job::Run(cores)));
        }
        match sim_asked(alloc, words)? {
            Some((cores, table)) => Ok(Some(Job::Sim { cores, table })),
            None => Ok(None),
        }
    }

    /// The files that are read, in their order.
    pub fn inputs(&self, alloc: Global) -> Result<Vec<Input>, Memory>
        ensures { IfOk result (λ made. made.items ≡ inputs self.now) }
    {
        match self {
            Job::Run(cores) => cores.inputs(alloc, MAX_SOURCE),
            Job::Sim { cores, .. } => cores.inputs(alloc, MAX_EXECUTABLE),
        }
    }
}
