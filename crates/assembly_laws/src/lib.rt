//! Laws of layers and of placing. Each theorem is the contract of a function, which computes nothing.
#![tactic(auto)]

ghost use Rattle.assembly_laws.specs.Alone.{JudgedAlone};
ghost use Rattle.assembly_laws.specs.Twice.{TwiceIsSeries};
ghost use Rattle.assembly_laws.specs.More.{OneCopyMore};
ghost use Rattle.assembly_laws.specs.Associative.{SeriesIsAssociative};
ghost use Rattle.assembly_laws.specs.Placed.{SeriesFitsAsItsParts, SeriesIsDrawnAsItsParts};
ghost use Rattle.assembly_laws.specs.PlacedAlike.{FitAlike, AreDrawnAlike};

/// Two copies of a part mean the part in series with itself.
pub fn twice_is_series()
    ensures { TwiceIsSeries }
{}

/// One copy more is one more in series with the others, but for the nodes' numbers.
pub fn one_copy_more()
    ensures { OneCopyMore }
{}

/// Of three parts in series it makes no difference which two are taken together first, but for the number
/// of one joint.
pub fn series_is_associative()
    ensures { SeriesIsAssociative }
{}

/// Between two nodes of a netlist, a series is placed exactly where its parts can be placed one by one, on a
/// new node between them.
pub fn series_fits_as_its_parts()
    ensures { SeriesFitsAsItsParts }
{}

/// And both draw the same, but for the nodes' numbers.
pub fn series_is_drawn_as_its_parts()
    ensures { SeriesIsDrawnAsItsParts }
{}

/// Assemblies that differ in the numbers of their inner nodes alone can be placed at the same nodes.
pub fn fit_alike()
    ensures { FitAlike }
{}

/// And they draw the same, but for the nodes' numbers.
pub fn are_drawn_alike()
    ensures { AreDrawnAlike }
{}

/// A plan is judged wherever it is placed as it is by itself.
pub fn judged_alone()
    ensures { JudgedAlone }
{}
