ghost use Rattle.std.specs.Prelude.{◌≡◌, codes};
ghost use Rattle.serde_json.specs.View.{view};
ghost use Rattle.wb_json.specs.Form.{Gives, optional};
ghost use Rattle.wb_commands.specs.Forms.{arguments_of, arguments_with, end_of, ends_of, places_of};

use crate::members::{key_if_any_at, key_or_null_if_any_at};
use std::alloc::Global;
use std::marker::Model;
use wb_base::Text;
use wb_diagram::{AnyKey, Arguments, End};
use wb_json::{Form, Value, Wrong, chosen, listed, optional};

/// What an element is put into, as far as arguments have it.
#[derive(Drop)]
pub(crate) struct Places {
    pub container: Option<Option<AnyKey>>,
    pub to: Option<Option<AnyKey>>,
}

/// The ends of an edge, as far as arguments have them.
#[derive(Drop)]
pub(crate) struct Ends {
    pub source: Option<AnyKey>,
    pub target: Option<AnyKey>,
}

/// The word for an end of an edge.
#[derive(Drop)]
pub(crate) struct EndWord(End);

impl Model for EndWord {
    ghost use Rattle.wb_diagram.specs.declared.commands.End.{End};

    ghost Value = { End };

    ghost view = { λ w. w.0 };
}

impl Form for EndWord {
    ghost use Rattle.wb_commands.specs.Forms.{end_of};

    ghost form = { end_of };

    fn read(alloc: Global, value: &Value) -> Result<EndWord, Wrong> {
        Ok(EndWord(read_end(alloc, value)?))
    }
}

fn read_end(alloc: Global, value: &Value) -> Result<End, Wrong>
    ensures { Gives result (end_of (view value.now)) }
{
    chosen(
        alloc,
        value,
        &[("source", End::Source), ("target", End::Target)],
    )
}

fn end_if_any(alloc: Global, value: &Value) -> Result<Option<End>, Wrong>
    ensures { Gives result (optional (codes "end") end_of (view value.now)) }
{
    match optional(alloc, value, "end")? {
        Some(EndWord(end)) => Ok(Some(end)),
        None => Ok(None),
    }
}

fn read_places(alloc: Global, value: &Value) -> Result<Places, Wrong>
    ensures { Gives result (places_of (view value.now)) }
{
    let container = key_or_null_if_any_at(alloc, value, "container")?;
    let to = key_or_null_if_any_at(alloc, value, "to")?;
    Ok(Places { container, to })
}

fn read_ends(alloc: Global, value: &Value) -> Result<Ends, Wrong>
    ensures { Gives result (ends_of (view value.now)) }
{
    let source = key_if_any_at(alloc, value, "source")?;
    let target = key_if_any_at(alloc, value, "target")?;
    Ok(Ends { source, target })
}

/// The arguments of these.
fn joined(
    places: Places,
    ends: Ends,
    element: Option<AnyKey>,
    arg0: Option<Text>,
    end: Option<End>,
) -> Arguments
    ensures { result ≡ arguments_with places ends element arg0 end }
{
    let Places { container, to } = places;
    let Ends { source, target } = ends;
    Arguments {
        container,
        source,
        target,
        element,
        arg0,
        end,
        to,
    }
}

/// The arguments that a body gives a tool.
#[tactic(auto, unfolding(crate::specs::Forms::arguments_of))]
fn read_arguments(alloc: Global, value: &Value) -> Result<Arguments, Wrong>
    ensures { Gives result (arguments_of (view value.now)) }
{
    listed(
        alloc,
        value,
        &[
            "container",
            "source",
            "target",
            "element",
            "arg0",
            "end",
            "to",
        ],
    )?;
    let end = end_if_any(alloc, value)?;
    let arg0 = optional(alloc, value, "arg0")?;
    let places = read_places(alloc, value)?;
    let ends = read_ends(alloc, value)?;
    let element = key_if_any_at(alloc, value, "element")?;
    Ok(joined(places, ends, element, arg0, end))
}

/// The arguments as a body has them.
#[derive(Drop)]
pub(crate) struct GivenArguments {
    arguments: Arguments,
}

impl Model for GivenArguments {
    ghost use Rattle.wb_diagram.specs.declared.commands.Arguments.{Arguments};

    ghost Value = { Arguments };

    ghost view = { λ g. g.arguments };
}

impl GivenArguments {
    /// The arguments, whose memory becomes the caller's.
    pub(crate) fn into_arguments(self) -> Arguments
        ensures { result ≡ self }
    {
        self.arguments
    }
}

impl Form for GivenArguments {
    ghost use Rattle.wb_commands.specs.Forms.{arguments_of};

    ghost form = { arguments_of };

    fn read(alloc: Global, value: &Value) -> Result<GivenArguments, Wrong> {
        Ok(GivenArguments {
            arguments: read_arguments(alloc, value)?,
        })
    }
}
