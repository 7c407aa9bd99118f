// How answers are written.
use crate::commands::CostKind;
use description::descriptions::Description;
use fault::Fault;
use std::alloc::{AllocError, Global};

pub(crate) fn refused(heap: Global, fault: impl Fault) -> Result<String, AllocError> {
    format!(in heap; "  refused {} at {}", fault.number(), fault.place())
}

// The variables that are not 0, in order.
pub(crate) fn variables(heap: Global, variables: &[u32]) -> Result<String, AllocError> {
    let mut line = String::from_str(heap, " ")?;
    for (variable, word) in variables.iter().enumerate() {
        if *word != 0 {
            write!(line, " {variable}={word}")?;
        }
    }
    if line.len() == 1 {
        line.push_str(" all 0")?;
    }
    Ok(line)
}

pub(crate) fn cost_kind(heap: Global, kind: CostKind) -> Result<String, AllocError> {
    format!(in heap; "  {kind}")
}

// How many names and rules there are, and which name is the start; a description that was read has one.
pub(crate) fn description(heap: Global, description: &Description) -> Result<String, AllocError> {
    let mut line = format!(in heap; "  {} names, start ", description.names.len())?;
    if let Some(start) = description
        .start_number()
        .and_then(|number| description.name(number))
    {
        write!(line, "{}", start.name)?;
    }
    write!(line, ", {} rules", description.rules.len())?;
    Ok(line)
}
