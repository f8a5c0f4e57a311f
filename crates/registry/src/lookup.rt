// Looking a type up in a registry's names.
ghost use Rattle.std.specs.Prelude.{◌≡◌, ◌==◌, [], find, option_map, unwrap_or};

// The name of type `t` among names that stand each behind its type, empty where it has none.
pub fn find(names: &[(u64, &'static str)], t: u64) -> &'static str
    ensures { result.now ≡ unwrap_or (option_map (λ n. n.1.now) (find (λ n. n.0 == t) names.now)) [] }
{
    names.iter().find(|n| n.0 == t).map_or("", |n| n.1)
}
