// Laws of what a run of a feed with keys writes.
ghost use Rattle.std.specs.Prelude.{◌≡◌, ◌++◌, ℕ, List, [], codes};
ghost use Rattle.tilt_keyed_line.specs.Feeds.{empty_keyed_feed, lines_of, own_lines};
ghost use Rattle.tilt_keyed_line.specs.Outputs.{lines_in};
ghost use Rattle.tilt_keyed_run.specs.Output.{alone, alone_lines};
ghost use Rattle.tilt_live_keys.specs.Output.{passed_lines, output_from};
ghost use Rattle.tilt_live_keys.specs.Recipe.{key_added, key_first, key_options};
ghost use Rattle.tilt_live_keys.specs.declared.key_recipe.KeyRecipe.{KeyRecipe};
ghost use Rattle.tilt_live_run.specs.Output.{output};

/// This does nothing. Its clauses are laws of the definitions. Take the lines of a key from all that is written for the lines of a feed,
/// without the key. They are what a run writes that is alone with the lines of this key (`apart`). With the header before it, that is
/// exactly what `LiveRun` writes for these lines (`alone`). So the lines of other keys change nothing.
pub fn keys_are_alone()
    ensures apart { (recipe : KeyRecipe) (key : List ℕ) (lines : List (List ℕ)) → (key ≡ [] → ⊥)
        → own_lines key (lines_in (output_from recipe 0 empty_keyed_feed lines))
        ≡ alone_lines (key_first recipe) (key_added recipe) (lines_of key (passed_lines recipe 0 empty_keyed_feed lines)) }
    ensures alone { (recipe : KeyRecipe) (lines : List (List ℕ))
        → codes "start,end,value\n" ++ alone (key_first recipe) (key_added recipe) lines
        ≡ output (key_options recipe) recipe.accepted.core lines }
{}
