//! What holds of the definitions.
ghost use Rattle.nb_settings.specs.Unknown.{FindsLeast};

/// The key that is told among those that mean nothing is one of them, and none of them comes before it by its bytes.
pub fn law_least()
    ensures { FindsLeast }
{}
