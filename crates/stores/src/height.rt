// How high a store stands.
ghost use Rattle.std.specs.Prelude.{◌≡◌};
ghost use Rattle.stores.specs.Meaning.{layered};

// The height of a layer over a store of this height; 255 stands for 255 or more.
pub fn layer_height(below: u8) -> u8
    ensures { result ≡ layered below }
{
    below.saturating_add(1)
}
