// The types as data: a row for each code, and every question on a type answered from its row.
#![tactic(auto)]

ghost use Rattle.std.specs.Prelude.{◌≡◌};
ghost use Rattle.types.specs.Types.{class_of, common_type, concrete_of, float_of, goes_to, integer_of, known_of, most_of, result_type, right_of, row_of, unary_right_of, width_of};

// How many types there are: their codes are the numbers below.
const TYPES: u8 = 7;

// The classes of types.
#[derive(Clone, Copy, Debug, PartialEq, Eq)]
pub enum TypeClass {
    Truth,
    Signed,
    Unsigned,
    Float,
}

// What is known of a type: its class, the bits of its patterns, the largest pattern, and whether it is concrete.
#[derive(Clone, Copy)]
pub struct Row {
    pub class: Option<TypeClass>,
    pub width: u8,
    pub most: u64,
    pub concrete: bool,
}

// A row of the table.
fn row_with(class: Option<TypeClass>, width: u8, most: u64, concrete: bool) -> Row
    ensures { result ≡ record { class = class; width = width; most = most; concrete = concrete } }
{
    Row {
        class,
        width,
        most,
        concrete,
    }
}

// The row of a type; an empty one for a code that names no type.
fn row_of(ty: u8) -> Row
    ensures { result ≡ row_of ty }
{
    match ty {
        0 => row_with(Some(TypeClass::Truth), 1, 1, true),
        1 => row_with(Some(TypeClass::Signed), 64, 0xffff_ffff_ffff_ffff, false),
        2 => row_with(Some(TypeClass::Float), 64, 0xffff_ffff_ffff_ffff, false),
        3 => row_with(Some(TypeClass::Signed), 32, 0xffff_ffff, true),
        4 => row_with(Some(TypeClass::Unsigned), 32, 0xffff_ffff, true),
        5 => row_with(Some(TypeClass::Float), 32, 0xffff_ffff, true),
        6 => row_with(Some(TypeClass::Float), 16, 0xffff, true),
        _ => row_with(None, 0, 0, false),
    }
}

// Whether a code names a type.
pub fn known(ty: u8) -> bool
    ensures { result ≡ known_of ty }
{
    ty < TYPES
}

// The class of a type; none for a code that names no type.
pub fn class(ty: u8) -> Option<TypeClass>
    ensures { result ≡ class_of ty }
{
    row_of(ty).class
}

// The bits of a type's patterns.
pub fn width(ty: u8) -> u8
    ensures { result ≡ width_of ty }
{
    row_of(ty).width
}

// The largest pattern of a type.
pub fn most(ty: u8) -> u64
    ensures { result ≡ most_of ty }
{
    row_of(ty).most
}

// Whether a type is a float type: these have matrices.
pub fn is_float(ty: u8) -> bool
    ensures { result ≡ float_of ty }
{
    (ty == 2) | (ty == 5) | (ty == 6)
}

// Whether a type is an integer type: these are shifted.
pub fn is_integer(ty: u8) -> bool
    ensures { result ≡ integer_of ty }
{
    (ty == 1) | (ty == 3) | (ty == 4)
}

// Whether a setting may have a type.
pub fn concrete(ty: u8) -> bool
    ensures { result ≡ concrete_of ty }
{
    row_of(ty).concrete
}

// Whether a type converts to another by itself.
pub fn goes_to(a: u8, b: u8) -> bool
    ensures { result ≡ goes_to a b }
{
    let x = row_of(a);
    let fits = match class(b) {
        Some(TypeClass::Float) => true,
        Some(TypeClass::Signed | TypeClass::Unsigned) => x.class == Some(TypeClass::Signed),
        _ => false,
    };
    (a < TYPES) & !x.concrete & (a != b) & fits
}

// The common type of two operands, where they have one.
pub fn common(a: u8, b: u8) -> Option<u8>
    ensures { result ≡ common_type a b }
{
    if (a < TYPES) & (a == b) | goes_to(b, a) {
        return Some(a);
    }
    if goes_to(a, b) {
        return Some(b);
    }
    None
}

// Whether a type has the right to a binary operator.
pub fn right(op: u8, ty: u8) -> bool
    ensures { result ≡ right_of op ty }
{
    match class(ty) {
        Some(TypeClass::Truth) => (1 <= op) & (op <= 2)
            | (8 <= op) & (op <= 9)
            | (14 <= op) & (op <= 15),
        Some(TypeClass::Signed | TypeClass::Unsigned) => (3 <= op) & (op <= 18),
        Some(TypeClass::Float) => (3 <= op) & (op <= 13),
        None => false,
    }
}

// Whether a type has the right to a unary operator. It is asked by comparisons, which cost a scalar's operator less than its row.
pub fn unary_right(op: u8, ty: u8) -> bool
    ensures { result ≡ unary_right_of op ty }
{
    let signed = (ty == 1) | (ty == 3);
    (op == 1) & (ty == 0) | (op == 2) & (signed | is_float(ty)) | (op == 3) & is_integer(ty)
}

// The type of an operator's answer.
pub fn result_type(op: u8, ty: u8) -> u8
    ensures { result ≡ result_type op ty }
{
    if (8 <= op) & (op <= 13) {
        return 0;
    }
    ty
}
