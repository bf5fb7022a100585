// The map of occupied slots: its lowest free place, its number of occupied ones, and one place set or freed.
ghost use Rattle.std.specs.Prelude.{◌≡◌, ◌<◌};
ghost use Rattle.record.specs.Map.{lowest_free_in, occupied_in, with_place, without_place};

// The lowest place that is not occupied; 8 where all are, which is what document 01's form gives, the trailing zeros of the complement.
pub fn lowest_free(map: u8) -> u32
    ensures { result ≡ lowest_free_in 8 map }
{
    u8::trailing_zeros(!map)
}

// How many places are occupied.
pub fn occupied(map: u8) -> u32
    ensures { result ≡ occupied_in 8 map }
{
    u8::count_ones(map)
}

// The map with place k occupied.
pub fn with_place(map: u8, k: u8) -> u8
    requires { k < 8 }
    ensures { result ≡ with_place map k }
{
    map | (1 << k)
}

// The map with place k free.
pub fn without_place(map: u8, k: u8) -> u8
    requires { k < 8 }
    ensures { result ≡ without_place map k }
{
    map & !(1 << k)
}
