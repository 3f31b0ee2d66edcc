//! The laws of a netlist, in tables that never need memory again.
ghost use Rattle.std.specs.Prelude.{◌≡◌, true};
ghost use Rattle.std.specs.List.{list_all};
ghost use Rattle.netlist.specs.Limits.{most_laws, most_terms};
ghost use Rattle.netlist.specs.Sound.{is_sized, is_term_count};
ghost use Rattle.sheet.specs.Room.{Roomy};
ghost use Rattle.sheet.specs.Tiling.{tile, lengths};

use netlist::spans::Span;
use netlist::terms::Term;

mod bounds;
mod keeping;
mod raw;

pub(crate) use bounds::keeps_bounds;
pub(crate) use raw::stand_for_law;

// The laws' terms stand one after another in `terms`, and `spans` says where each law begins and how many
// terms it has. All memory is reserved once, and a `Vec` for each law would need more at each step. It has no
// `Model`, since tables keep a fact of all terms together, which a list of laws would hide.
#[derive(Drop)]
pub(crate) struct LawTable {
    spans: Vec<Span>,
    terms: Vec<Term>,
    ghost laws_fit: { Roomy spans most_laws },
    ghost terms_fit: { Roomy terms most_terms },
    ghost tiled: { tile 0 spans.items terms.len ≡ true },
    ghost counted: { list_all is_term_count (lengths spans.items) ≡ true },
    ghost sized: { list_all is_sized terms.items ≡ true },
}
