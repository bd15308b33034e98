ghost use Rattle.std.specs.Prelude.{◌≡◌, true, Ok, OnOk};
ghost use Rattle.serde_json.specs.Data.{put};
ghost use Rattle.wb_json.specs.ToJson.{members_json};
ghost use Rattle.wb_json.specs.NoFloats.{members_no_float};
ghost use Rattle.serde_json.specs.View.{view, members_view};
ghost use Rattle.wb_json.specs.Place.{at_member};
ghost use Rattle.wb_json.specs.Form.{Gives, is_name, names_pass, in_turn, member_list, member_of, members_of};

use crate::form::Form;
use crate::member_names::{Free, only};
use crate::names::Name;
use crate::objects::part_in;
use crate::to_json::ToJson;
use crate::wrong::Wrong;
use serde_json::{Map, Value};
use std::alloc::{AllocError, Global};
use std::marker::Model;
use wb_base::List;

/// The members of an object whose members' names are free, ascending by the bytes of the names.
#[derive(Debug, Drop)]
pub struct Members<T> {
    members: List<(Name, T)>,
}

impl<T> Model for Members<T> {
    ghost use Rattle.std.specs.Prelude as std;

    ghost Value = { std.List (std.List std.ℕ × T) };

    ghost view = { λ m. m.members };
}

impl<T> Members<T> {
    /// The members of this list.
    pub fn from_list(members: List<(Name, T)>) -> Members<T>
        ensures { result ≡ members }
    {
        Members { members }
    }

    pub fn as_slice(&self) -> &[(Name, T)]
        ensures { result.now ≡ self.now }
    {
        self.members.as_slice()
    }

    /// The members' list, whose memory becomes the caller's.
    pub fn into_list(self) -> List<(Name, T)>
        ensures { result ≡ self }
    {
        self.members
    }
}

impl<T: Form> Form for Members<T> {
    ghost form = { members_of T.form };

    #[tactic(auto, unfolding(crate::specs::Form::members_of, crate::specs::Form::object_with))]
    fn read(alloc: Global, value: &Value) -> Result<Members<T>, Wrong> {
        match value.as_object() {
            Some(members) => {
                only(alloc, members, &Free)?;
                named(alloc, members)
            }
            None => Err(Wrong::here(alloc)),
        }
    }
}

fn named<T: Form>(alloc: Global, members: &Map<String, Value>) -> Result<Members<T>, Wrong>
    requires { names_pass is_name (members_view members.now.entries) ≡ Ok tt }
    ensures { Gives result
        (in_turn (member_of T.form) (member_list (members_view members.now.entries))) }
{
    let mut found = Vec::new(alloc);
    for (name, member) in members.iter() {
        found.push(member_at(alloc, name.as_str(), member)?)?;
    }
    Ok(Members {
        members: List::from_vec(found),
    })
}

fn member_at<T: Form>(alloc: Global, name: &str, member: &Value) -> Result<(Name, T), Wrong>
    requires { is_name name.now ≡ true }
    ensures { Gives result (member_of T.form (name.now, view member.now)) }
{
    let value = part_in(alloc, member, name)?;
    Ok((Name::new(alloc, name)?, value))
}

impl<T: ToJson> ToJson for Members<T> {
    ghost json = { members_json T.json };

    ghost no_float = { members_no_float T.json T.no_float };

    #[tactic(auto, unfolding(crate::specs::ToJson::members_json))]
    fn to_json(&self, alloc: Global) -> Result<Value, AllocError> {
        let mut object = Map::new(alloc);
        for member in self.as_slice() {
            put_member(alloc, &mut object, member)?;
        }
        Ok(Value::from(object))
    }
}

fn put_member<T: ToJson>(
    alloc: Global,
    object: &mut Map<String, Value>,
    member: &(Name, T),
) -> Result<(), AllocError>
    ensures { OnOk result (members_view object.new.entries
        ≡ put member.now.0 (T.json member.now.1) (members_view object.old.entries)) }
{
    let value = member.1.to_json(alloc)?;
    serde_json::put(object, alloc, member.0.as_str(), value)
}
