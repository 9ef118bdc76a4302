//! The laws of the finite maps and sets in which the contracts of every crate speak, for keys of any
//! type and order. They compute nothing.

ghost use Rattle.std.specs.Prelude.{◌≡◌, ◌+◌, Bool, true, not, List, Option, Some, None, cond, ◌||◌, ◌&&◌};
ghost use Rattle.std.specs.List.{list_any};
ghost use Rattle.std.specs.Option.{option_map};
ghost use Rattle.page_words.specs.FiniteMap as map;
ghost use Rattle.page_words.specs.FiniteMap.{Order, Map, same};
ghost use Rattle.page_words.specs.FiniteSet as set;
ghost use Rattle.page_words.specs.FiniteSet.{Set};

/// A finite map is determined by what it answers, and each change by what it leaves at every key.

pub fn maps_are_their_answers<K, X>()
    ensures determined { (o : Order K) (m n : Map o X) → ((q : K) → map.get m q ≡ map.get n q) → m ≡ n }
    ensures empty { (o : Order K) (q : K) → let none : Map o X = map.empty in map.get none q ≡ None }
    ensures inserted { (o : Order K) (m : Map o X) (k : K) (x : X) (q : K)
        → map.get (map.insert m k x) q ≡ cond (same o q k) (Some x) (map.get m q) }
    ensures removed { (o : Order K) (m : Map o X) (k q : K)
        → map.get (map.remove m k) q ≡ cond (not (same o k q)) (map.get m q) None }
    ensures retained { (o : Order K) (m : Map o X) (p : K → Bool) (q : K)
        → map.get (map.retain_keys m p) q ≡ cond (p q) (map.get m q) None }
    ensures collected { (o : Order K) (f : K → Option X) (ks : List K) (q : K)
        → map.get (map.collect {o = o} f ks) q ≡ cond (list_any (same o q) ks) (f q) None }
    ensures length { (o : Order K) (m : Map o X) (k : K) (x : X)
        → map.len (map.insert m k x) ≡ cond (map.contains_key m k) (map.len m) (map.len m + 1) }
{}

/// A change of each value is seen at each key, and keeps the number of keys.
pub fn values_change_by_key<K, X, Y>()
    ensures changed { (o : Order K) (f : K → X → Y) (m : Map o X) (q : K)
        → map.get (map.map_values f m) q ≡ option_map (f q) (map.get m q) }
    ensures length { (o : Order K) (f : K → X → Y) (m : Map o X) → map.len (map.map_values f m) ≡ map.len m }
{}

/// A finite set is determined by its members, and each change by the members that it leaves.
pub fn sets_are_their_members<K>()
    ensures determined { (o : Order K) (s t : Set o) → ((q : K) → set.contains s q ≡ set.contains t q) → s ≡ t }
    ensures inserted { (o : Order K) (s : Set o) (k q : K)
        → set.contains (set.insert s k) q ≡ (same o q k || set.contains s q) }
    ensures retained { (o : Order K) (s : Set o) (p : K → Bool) (q : K)
        → set.contains (set.retain s p) q ≡ (set.contains s q && p q) }
    ensures length { (o : Order K) (s : Set o) (k : K)
        → set.len (set.insert s k) ≡ cond (set.contains s k) (set.len s) (set.len s + 1) }
{}

/// Two keys are the same exactly where they are equal.
pub fn keys_are_told_apart<K>()
    ensures itself { (o : Order K) (k : K) → same o k k ≡ true }
    ensures equal { (o : Order K) (j k : K) → same o j k ≡ true → j ≡ k }
{}
