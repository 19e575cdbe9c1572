//! The kinds of requests, and the members of each.
ghost use Rattle.std.specs.Prelude.{◌≡◌, map, option_map};
ghost use Rattle.borrowed_json.specs.Meaning.{members_data};
ghost use Rattle.server_specs.specs.Request as spec;
ghost use Rattle.request_reading.specs.RequestKinds.{is_among, kind_view, names_of};

use crate::member_fault::least_of;
use borrowed_json::Entry;

/// The kind of a request.
#[derive(Clone, Copy, Drop)]
pub(crate) enum RequestKind {
    Define,
    Read,
    Find,
    Put,
    Edit,
    Preview,
    Describe,
    List,
    Batch,
    Undo,
    Export,
    Import,
}

impl RequestKind {
    /// The kind of request that the word names.
    pub(crate) fn by_word(word: &str) -> Option<RequestKind>
        ensures { option_map kind_view result ≡ spec.asked_by word.now }
    {
        match word {
            "define" => Some(RequestKind::Define),
            "read" => Some(RequestKind::Read),
            "find" => Some(RequestKind::Find),
            "put" => Some(RequestKind::Put),
            "edit" => Some(RequestKind::Edit),
            "preview" => Some(RequestKind::Preview),
            "type" => Some(RequestKind::Describe),
            "list" => Some(RequestKind::List),
            "batch" => Some(RequestKind::Batch),
            "undo" => Some(RequestKind::Undo),
            "export" => Some(RequestKind::Export),
            "import" => Some(RequestKind::Import),
            _ => None,
        }
    }

    /// The names of its members, in byte order.
    pub(crate) fn member_names(self) -> &'static [&'static str]
        ensures { map (λ name. name.now) result.now ≡ names_of (spec.wanted (kind_view self)) }
    {
        match self {
            RequestKind::Define => &["do", "text"],
            RequestKind::Read | RequestKind::Describe | RequestKind::Export => &["do", "view"],
            RequestKind::Find => &["column", "do", "value", "view"],
            RequestKind::Put => &["do", "on", "rows", "view"],
            RequestKind::Edit | RequestKind::Preview => &["add", "do", "on", "remove", "view"],
            RequestKind::List | RequestKind::Undo => &["do"],
            RequestKind::Batch => &["do", "edits", "on"],
            RequestKind::Import => &["csv", "do", "on", "view"],
        }
    }
}

/// The least member that has none of the names.
pub(crate) fn first_unknown<'a>(names: &[&str], members: &[Entry<'a>]) -> Option<&'a str>
    ensures { option_map (λ name. name.now) result
        ≡ spec.first_other (is_among (map (λ name. name.now) names.now))
        (members_data members.now) }
{
    let mut first = None;
    for member in members {
        if !is_known(names, member.0) {
            first = Some(least_of(member.0, first));
        }
    }
    first
}

fn is_known(names: &[&str], name: &str) -> bool
    ensures { result ≡ is_among (map (λ name. name.now) names.now) name.now }
{
    names.iter().any(|known| name == *known)
}
