// What holds of groups that were followed.
ghost use Rattle.followed_pairs.specs.Items.{ItemsAreOfGroups};

/// At the bytes that events have, groups that were followed tell what each tells alone, and other groups
/// tell nothing.
pub fn items_are_of_groups()
    ensures { ItemsAreOfGroups }
{}
