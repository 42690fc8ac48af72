ghost use Rattle.ps_config.specs.Masks.{TopicIsMasked, SubIsMasked};

/// Settings are those of an update if and only if applying its mask to the defaults gives them.
pub fn law_masks()
    ensures topic { TopicIsMasked }
    ensures sub { SubIsMasked }
{}
