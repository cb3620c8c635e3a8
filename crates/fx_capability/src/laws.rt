ghost use Rattle.std.specs.Prelude.{◌≡◌, ℕ, List, true};
ghost use Rattle.tab_spec.specs.declared.CommandRow.{CommandRow};
ghost use Rattle.tab_spec.specs.Persist.{Persist};
ghost use Rattle.effect_spec.specs.Capabilities.{CapabilityLimits, Listed, capability_of};
ghost use Rattle.effect_spec.specs.Capabilities.{is_of_device};

/// A list that a resource manager leaves to the device is the same for all who ask, whatever there
/// is of each. So a client may get what the device answers for itself. It is a law: a function
/// without a body, whose `ensures` crates above cite.
pub fn a_device_lists_for_clients()
    ensures { (params : List ℕ) (rows : List CommandRow) (persist : Persist)
        (limits others_limits : CapabilityLimits) (objects others : List ℕ)
        (sessions other_sessions : List Listed) (active others_active : ℕ)
        → is_of_device params ≡ true
        → capability_of limits rows persist objects sessions active params
        ≡ capability_of others_limits rows persist others other_sessions others_active params }
{}
