// What a wire may carry.
ghost use Rattle.std.specs.Prelude.{◌≡◌, [], ◌∷◌, take, slice_index_or};
ghost use Rattle.value.specs.Values.{Ops, carried_on};

pub trait WireValue: Copy {
    // What registers and look-ups make of such values.
    ghost ops: { Ops Self };

    // What a wire carries where nothing is given.
    fn none() -> Self
        ensures { result ≡ ops.none };

    fn invert(self) -> Self
        ensures { result ≡ ops.look 1 (self ∷ []) };

    fn both(self, other: Self) -> Self
        ensures { result ≡ ops.look 8 (self ∷ other ∷ []) };

    fn differ(self, other: Self) -> Self
        ensures { result ≡ ops.look 6 (self ∷ other ∷ []) };

    fn register(self) -> Self
        ensures { result ≡ ops.register self };

    // A look-up of the first `width` operands, of which there are four.
    // They are loose values, since a slice of them would lie in an array, whose size is not proved at a type parameter.
    fn look(table: u16, width: u8, a: Self, b: Self, c: Self, d: Self) -> Self
        ensures { result ≡ ops.look table (take width (a ∷ b ∷ c ∷ d ∷ [])) };

    // A look-up of what the wires carry, of which the first four count.
    // It takes all values, for the same reason.
    fn look_on(table: u16, wires: &[u16], values: &[Self]) -> Self
        ensures { result ≡ ops.look table (carried_on ops.none values.now (take 4 wires.now)) }
    {
        let none = Self::none();
        match wires {
            [] => Self::look(table, 0, none, none, none, none),
            [a] => {
                let a = value_on(*a, values, none);
                Self::look(table, 1, a, none, none, none)
            }
            [a, b] => {
                let a = value_on(*a, values, none);
                let b = value_on(*b, values, none);
                Self::look(table, 2, a, b, none, none)
            }
            [a, b, c] => {
                let a = value_on(*a, values, none);
                let b = value_on(*b, values, none);
                let c = value_on(*c, values, none);
                Self::look(table, 3, a, b, c, none)
            }
            [a, b, c, d, ..] => {
                let a = value_on(*a, values, none);
                let b = value_on(*b, values, none);
                let c = value_on(*c, values, none);
                let d = value_on(*d, values, none);
                Self::look(table, 4, a, b, c, d)
            }
        }
    }
}

// What a wire carries; `none` past the last.
fn value_on<V: Copy>(wire: u16, values: &[V], none: V) -> V
    ensures { result ≡ slice_index_or values.now wire none }
{
    values.get(usize::from(wire)).copied().unwrap_or(none)
}
