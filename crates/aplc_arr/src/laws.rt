//! Laws of the definitions alone.
//! They must not say what a call does.

ghost use Rattle.std.specs.Prelude.{true, ◌≡◌, ◌+◌, ◌<◌, ℕ, ℤ, List, [], ◌∷◌, ◌++◌, Option, Some, Ok, Err, IfOk, length, map, drop, remove, sum, slice_set, unsigned_abs};
ghost use mathlib.Core.List.{reverse};
ghost use Rattle.aplc_scalar.specs.declared.kind.Kind.{Kind};
ghost use Rattle.aplc_scalar.specs.declared.kind.Kind.TheVariants.{Num};
ghost use Rattle.aplc_scalar.specs.declared.kind.FaultKind.{FaultKind};
ghost use Rattle.aplc_scalar.specs.Scalar.{in_range};
ghost use Rattle.aplc_scalar.specs.Number.{number_text};
ghost use Rattle.aplc_scalar.specs.declared.function.ScalarFn.{ScalarFn};
ghost use Rattle.aplc_arr.specs.Arrays.{Array, IsArray, IsIndexOf, rank, product, place, index_at, at, first_of, vector_shape};
ghost use Rattle.aplc_arr.specs.Delayed.{Delayed, Gives, moved, array_by, cells_of, HasFirstFault, computed};
ghost use Rattle.aplc_arr.specs.Each.{common_shape, each_monadic, each_dyadic};
ghost use Rattle.aplc_arr.specs.Structure.{IsOrigin, magnitudes, from_origin, lengths_moved, front_of, layers, common_front, shape_of, ravelled, iota, reversed, rotated, transposed, transposed_by, reshaped, catenated};
ghost use Rattle.aplc_arr.specs.Selection.{lengths_left, axis_length, counts_for, taken, dropped, replicated, expanded, index_of, members};
ghost use Rattle.aplc_arr.specs.Indexing.{IsShapedAs, joined_shape, indexed, changed};
ghost use Rattle.aplc_arr.specs.Display.{shown};
ghost use Rattle.aplc_arr.specs.Operators.{reduced, scanned, outer_product, inner_product};

/// Places and multi-indices are inverse, and a place lies below the number of elements.
pub fn row_major_order()
    ensures below { (ns is : List ℕ) → IsIndexOf ns is → place ns is < product ns }
    ensures within { (ns : List ℕ) (p : ℕ) → p < product ns → IsIndexOf ns (index_at ns p) }
    ensures place { (ns : List ℕ) (p : ℕ) → p < product ns → place ns (index_at ns p) ≡ p }
    ensures index { (ns is : List ℕ) → IsIndexOf ns is → index_at ns (place ns is) ≡ is }
{}

/// The elements of a delayed array are what its formula gives, and its fault is the first one.
pub fn elements_by_formula()
    ensures count { (d : Delayed) (zs : List ℤ) → cells_of d ≡ Ok zs → length zs ≡ product d.shape }
    ensures element { (d : Delayed) (zs : List ℤ) (is : List ℕ) → cells_of d ≡ Ok zs → IsIndexOf d.shape is → d.element is ≡ Ok (at record { kind = d.kind; shape = d.shape; cells = zs } is) }
    ensures fault { (d : Delayed) (e : FaultKind) → cells_of d ≡ Err e → HasFirstFault d e }
    ensures moved { (k : Kind) (ns : List ℕ) (f : List ℕ → ℤ) → computed (moved k ns f) ≡ Ok (array_by k ns f) }
    ensures at { (k : Kind) (ns : List ℕ) (f : List ℕ → ℤ) (is : List ℕ) → IsIndexOf ns is → at (array_by k ns f) is ≡ f is }
{}

/// The kind and the shape of what each primitive with one argument gives, if it has no fault.
pub fn shapes_monadic()
    ensures each { (g : ScalarFn) (b : Array) → Gives Num b.shape (each_monadic g b) }
    ensures shape { (b : Array) → Gives Num (rank b ∷ []) (shape_of b) }
    ensures ravel { (b : Array) → Gives b.kind (product b.shape ∷ []) (ravelled b) }
    ensures iota { (o : ℤ) (b : Array) → Gives Num (unsigned_abs (first_of b) ∷ []) (iota o b) }
    ensures reverse { (x : Option ℕ) (b : Array) → Gives b.kind b.shape (reversed x b) }
    ensures transpose { (b : Array) → Gives b.kind (reverse b.shape) (transposed b) }
    ensures reduce { (g : ScalarFn) (i : ℕ) (b : Array) → Gives Num (remove b.shape i) (reduced g (Some i) b) }
    ensures scan { (g : ScalarFn) (x : Option ℕ) (b : Array) → Gives Num b.shape (scanned g x b) }
{}

/// The kind and the shape of what each primitive with two arguments gives, if it has no fault.
pub fn shapes_dyadic()
    ensures each { (g : ScalarFn) (a b : Array) (ns : List ℕ) → common_shape a.shape b.shape ≡ Some ns → Gives Num ns (each_dyadic g a b) }
    ensures reshape { (a b : Array) → Gives b.kind (magnitudes a.cells) (reshaped a b) }
    ensures catenate { (a b : Array) → Gives a.kind (common_front a.shape b.shape ++ (layers a.shape + layers b.shape) ∷ []) (catenated a b) }
    ensures rotate { (x : Option ℕ) (a b : Array) → Gives b.kind b.shape (rotated x a b) }
    ensures transpose { (o : ℤ) (a b : Array) → Gives b.kind (lengths_moved (map (from_origin o) a.cells) b.shape) (transposed_by o a b) }
    ensures take { (a b : Array) → Gives b.kind (magnitudes a.cells) (taken a b) }
    ensures drop { (a b : Array) → Gives b.kind (lengths_left a.cells (vector_shape b.shape)) (dropped a b) }
    ensures replicate { (i : ℕ) (a b : Array) → Gives b.kind (slice_set (vector_shape b.shape) i (sum (counts_for a (axis_length a b i)))) (replicated (Some i) a b) }
    ensures expand { (i : ℕ) (a b : Array) → Gives b.kind (slice_set (vector_shape b.shape) i (length a.cells)) (expanded (Some i) a b) }
    ensures index_of { (o : ℤ) (a b : Array) → Gives Num b.shape (index_of o a b) }
    ensures member { (a b : Array) → Gives Num a.shape (members a b) }
    ensures outer { (g : ScalarFn) (a b : Array) → Gives Num (a.shape ++ b.shape) (outer_product g a b) }
    ensures inner { (h g : ScalarFn) (a b : Array) → Gives Num (front_of a.shape ++ drop 1 b.shape) (inner_product h g a b) }
{}

/// The kind and the shape of what indexing gives, and of what indexed assignment leaves.
pub fn shapes_indexed()
    ensures index { (o : ℤ) (b : Array) (xs : List (Option Array)) → Gives b.kind (joined_shape b.shape xs) (indexed o b xs) }
    ensures change { (o : ℤ) (a v : Array) (xs : List (Option Array)) → IfOk (changed o a xs v) (IsShapedAs a) }
{}

/// Each primitive with one argument gives an array of the language, if it has no fault.
pub fn arrays_stay_monadic()
    ensures each { (g : ScalarFn) (b : Array) → IsArray b → IfOk (computed (each_monadic g b)) IsArray }
    ensures shape { (b : Array) → IsArray b → IfOk (computed (shape_of b)) IsArray }
    ensures ravel { (b : Array) → IsArray b → IfOk (computed (ravelled b)) IsArray }
    ensures iota { (o : ℤ) (b : Array) → IsOrigin o → IfOk (computed (iota o b)) IsArray }
    ensures reverse { (x : Option ℕ) (b : Array) → IsArray b → IfOk (computed (reversed x b)) IsArray }
    ensures transpose { (b : Array) → IsArray b → IfOk (computed (transposed b)) IsArray }
    ensures reduce { (g : ScalarFn) (x : Option ℕ) (b : Array) → IsArray b → IfOk (computed (reduced g x b)) IsArray }
    ensures scan { (g : ScalarFn) (x : Option ℕ) (b : Array) → IsArray b → IfOk (computed (scanned g x b)) IsArray }
{}

/// Each primitive with two arguments gives an array of the language, if it has no fault.
pub fn arrays_stay_dyadic()
    ensures each { (g : ScalarFn) (a b : Array) → IsArray a → IsArray b → IfOk (computed (each_dyadic g a b)) IsArray }
    ensures reshape { (a b : Array) → IsArray b → IfOk (computed (reshaped a b)) IsArray }
    ensures catenate { (a b : Array) → IsArray a → IsArray b → IfOk (computed (catenated a b)) IsArray }
    ensures rotate { (x : Option ℕ) (a b : Array) → IsArray b → IfOk (computed (rotated x a b)) IsArray }
    ensures transpose { (o : ℤ) (a b : Array) → IsArray b → IfOk (computed (transposed_by o a b)) IsArray }
    ensures take { (a b : Array) → IsArray b → IfOk (computed (taken a b)) IsArray }
    ensures drop { (a b : Array) → IsArray b → IfOk (computed (dropped a b)) IsArray }
    ensures replicate { (x : Option ℕ) (a b : Array) → IsArray b → IfOk (computed (replicated x a b)) IsArray }
    ensures expand { (x : Option ℕ) (a b : Array) → IsArray b → IfOk (computed (expanded x a b)) IsArray }
    ensures index_of { (o : ℤ) (a b : Array) → IsOrigin o → IsArray a → IsArray b → IfOk (computed (index_of o a b)) IsArray }
    ensures member { (a b : Array) → IsArray a → IfOk (computed (members a b)) IsArray }
    ensures outer { (g : ScalarFn) (a b : Array) → IsArray a → IsArray b → IfOk (computed (outer_product g a b)) IsArray }
    ensures inner { (h g : ScalarFn) (a b : Array) → IsArray a → IsArray b → IfOk (computed (inner_product h g a b)) IsArray }
{}

/// Indexing gives an array of the language, and indexed assignment leaves one, if there is no fault.
pub fn arrays_stay_indexed()
    ensures index { (o : ℤ) (b : Array) (xs : List (Option Array)) → IsArray b → IfOk (computed (indexed o b xs)) IsArray }
    ensures change { (o : ℤ) (a v : Array) (xs : List (Option Array)) → IsArray a → IsArray v → IfOk (changed o a xs v) IsArray }
{}

/// A number by itself is displayed as its text and a line feed.
pub fn number_shown()
    ensures { (z : ℤ) → in_range z ≡ true → shown record { kind = Num; shape = []; cells = z ∷ [] } ≡ number_text z ++ 10 ∷ [] }
{}
