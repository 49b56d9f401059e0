ghost use Rattle.raster_cells.specs.Distance.{DistancesHaveValues, DistancesKeepOrder, DistancesStand, ValuesHaveDistances};
ghost use Rattle.raster_cells.specs.Values.{WrittenValuesStand, ValuesAreOnce, ValuesAreThere};

/// A law: the bytes of values stand for them and for no others, and so many bytes stand for some.
pub fn bytes_are_values()
    ensures written { WrittenValuesStand }
    ensures one { ValuesAreOnce }
    ensures there { ValuesAreThere }
{}

/// A law: values as distances above the type's least, and these as values again, are the values.
pub fn distances_stand()
    ensures { DistancesStand }
{}

/// A law: the values of a type have the distances below two to the power of its bits, each of which
/// is that of one value, and a greater value has a greater one.
pub fn distances_keep_order()
    ensures small { ValuesHaveDistances }
    ensures there { DistancesHaveValues }
    ensures order { DistancesKeepOrder }
{}
