// The laws of the operators.
ghost use Rattle.std.specs.Prelude.{◌≡◌, ◌*◌, ◌≤ℤ◌, ℕ, ℤ, pos, true, Option, Some};
ghost use Rattle.tilt_base.specs.Scalar.{choose};
ghost use Rattle.tilt_base.specs.declared.operator.Op1.{Op1};
ghost use Rattle.tilt_base.specs.declared.operator.Op2.{Op2};
ghost use Rattle.tilt_base.specs.declared.operator.Op2.TheVariants.{Div, Mul, When};
ghost use Rattle.tilt_fractions.specs.Exact.{CellStandsFor, exact1, exact2, exact_choose, needs_one_scale, scale1, scale2, wide1, wide2};
ghost use Rattle.tilt_fractions.specs.Fraction.{Fraction};

/// This does nothing. Its clauses are the laws by which whole numbers at scales represent fractions: if the operands of an
/// operator do, so does its result, null for null. They hold of numbers of any size.
pub fn whole_numbers_stand_for_fractions()
    ensures one { (op : Op1) (s : ℕ) (a : Option ℤ) (p : Option Fraction) → pos 1 ≤ℤ pos s → CellStandsFor s a p
        → CellStandsFor (scale1 op s) (wide1 op a) (exact1 op p) }
    // Two operands at one scale.
    ensures two { (op : Op2) (s : ℕ) (a b : Option ℤ) (p q : Option Fraction) → needs_one_scale op ≡ true → pos 1 ≤ℤ pos s
        → CellStandsFor s a p → CellStandsFor s b q → CellStandsFor (scale2 op s) (wide2 op a b) (exact2 s op p q) }
    // The condition may have any scale.
    ensures when { (s t : ℕ) (a c : Option ℤ) (p r : Option Fraction) → pos 1 ≤ℤ pos t
        → CellStandsFor s a p → CellStandsFor t c r → CellStandsFor s (wide2 When a c) (exact2 s When p r) }
    ensures choice { (s t : ℕ) (c a b : Option ℤ) (r p q : Option Fraction) → pos 1 ≤ℤ pos t
        → CellStandsFor t c r → CellStandsFor s a p → CellStandsFor s b q → CellStandsFor s (choose c a b) (exact_choose r p q) }
    // The scales of factors are multiplied.
    ensures product { (s t u : ℕ) (a b : Option ℤ) (p q : Option Fraction)
        → CellStandsFor s a p → CellStandsFor t b q → CellStandsFor (s * t) (wide2 Mul a b) (exact2 u Mul p q) }
    // The scale of the dividend is divided by that of the divisor, if the quotient is whole.
    ensures quotient { (s t u : ℕ) (a b : Option ℤ) (p q : Option Fraction) → pos 1 ≤ℤ pos t → pos 1 ≤ℤ pos u → u * t ≡ s
        → CellStandsFor s a p → CellStandsFor t b q → CellStandsFor u (wide2 Div a b) (exact2 u Div p q) }
    // A number that is multiplied by as much as its scale represents the same fraction.
    ensures raised { (s k : ℕ) (a : Option ℤ) (p : Option Fraction)
        → CellStandsFor s a p → CellStandsFor (k * s) (wide2 Mul (Some (pos k)) a) p }
{}
