// The handler lists of a code item, by the places where they stand.

ghost use Rattle.std.specs.Prelude.{◌≡◌, ◌==◌, ◌<◌, length, find, option_copied, slice_get, Some, []};
ghost use Rattle.pi_format.specs.Rules.CodeItems.{HandlerList as List, is_list_at};
ghost use Rattle.pi_codeitem.specs.Places.{ArePlaces};

use crate::bytes::nth;
use pi_model::listed::Listed;
use std::alloc::Global;
use std::marker::Model;

/// A handler: the type that it catches, and the unit where it begins.
#[derive(Clone, Copy, Debug)]
pub struct Handler {
    pub ty: u32,
    pub to: u32,
}

impl Model for Handler {
    ghost use Rattle.pi_format.specs.Rules.CodeItems.{Handler as Caught};

    ghost Value = { Caught };

    ghost view = { λ h. record { ty = h.ty; to = h.to } };

    ghost inverse = { λ h. record { ty = h.ty; to = h.to } };
}

/// A list of handlers: the place where it stands, its typed handlers, and the unit of the handler of all that these do
/// not catch.
#[derive(Debug, Drop)]
pub struct HandlerList {
    pub at: u32,
    pub typed: Listed<Handler>,
    pub last: Option<u32>,
}

impl Model for HandlerList {
    ghost use Rattle.pi_format.specs.Rules.CodeItems.{HandlerList as List};

    ghost Value = { List };

    ghost view = { λ l. record { at = l.at; typed = l.typed; last = l.last } };
}

/// The handler lists of a code item in the order of their places.
#[derive(Debug, Drop)]
pub struct HandlerLists {
    lists: Vec<HandlerList>,
    places: Vec<u32>,
}

impl Model for HandlerLists {
    ghost use Rattle.std.specs.Prelude.{List};
    ghost use Rattle.pi_format.specs.Rules.CodeItems.{HandlerList as Handlers};
    ghost use Rattle.pi_codeitem.specs.Places.{ArePlaces};

    ghost Value = { List Handlers };

    ghost view = { λ l. l.lists.items };

    ghost invariant = { λ l. ArePlaces (λ (h : Handlers). h.at) l.places.items l.lists.items };
}

impl HandlerLists {
    /// Lists with the places where they stand.
    pub(crate) fn new(lists: Vec<HandlerList>, places: Vec<u32>) -> HandlerLists
        requires { ArePlaces (λ (l : List). l.at) places.items lists.items }
        ensures { result ≡ lists.items }
    {
        HandlerLists { lists, places }
    }

    /// No lists.
    pub(crate) fn none(alloc: Global) -> HandlerLists
        ensures { result ≡ [] }
    {
        HandlerLists {
            lists: Vec::new(alloc),
            places: Vec::new(alloc),
        }
    }

    /// The lists in their order.
    pub fn as_slice(&self) -> &[HandlerList]
        ensures { result.now ≡ self.now }
    {
        self.lists.as_slice()
    }

    /// The list that stands at a place; it is searched for by halves.
    pub fn find(&self, place: u32) -> Option<&HandlerList>
        ensures { option_copied result ≡ find (λ (l : List). l.at == place) self.now }
    {
        match self.places.binary_search(&place) {
            Ok(k) => nth(self.lists.as_slice(), k),
            Err(_) => None,
        }
    }

    /// Whether a list stands at a place.
    #[tactic(auto, using(crate::proofs::Finds::any_found))]
    pub(crate) fn has(&self, place: u32) -> bool
        ensures { result ≡ is_list_at self.now place }
    {
        self.find(place).is_some()
    }
}
