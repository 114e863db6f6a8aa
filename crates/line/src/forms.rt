// The ten forms of a line, each from the line's own number and the values of its form's fields, where they are all there.
ghost use Rattle.std.specs.Prelude.{◌≡◌};
ghost use Rattle.line.specs.Made.{made, int_form, any_form, arrow_form, param_form, lam_form, app_form, op_form, var_form, num_form, enc_form};

use model::{Line, Param, Term, TypeForm};
use tokens::values::Values;

// `T,i,INT`
pub(crate) fn int(i: u16, v: Result<Values, Values>) -> Line
    ensures { result ≡ made (int_form i) v }
{
    v.map_or(Line::NoForm, |_| Line::TypeLine(i, TypeForm::Int))
}

// `T,i,ANY`
pub(crate) fn any(i: u16, v: Result<Values, Values>) -> Line
    ensures { result ≡ made (any_form i) v }
{
    v.map_or(Line::NoForm, |_| Line::TypeLine(i, TypeForm::Any))
}

// `T,i,ARROW,q,t,q,t`
pub(crate) fn arrow(i: u16, v: Result<Values, Values>) -> Line
    ensures { result ≡ made (arrow_form i) v }
{
    v.map_or(Line::NoForm, |v| {
        let form = TypeForm::Arrow(v.code[0], v.number[1], v.code[2], v.number[3]);
        Line::TypeLine(i, form)
    })
}

// `P,p,q,t` or `P,p,q,t,floor`: where no floor stands its code is 0, for PLAIN
pub(crate) fn param(p: u16, v: Result<Values, Values>) -> Line
    ensures { result ≡ made (param_form p) v }
{
    v.map_or(Line::NoForm, |v| {
        let param = Param {
            qualifier: v.code[0],
            floor: v.code[2],
            typerow: v.number[1],
        };
        Line::ParamLine(p, param)
    })
}

// `E,i,LAM,p,b`
pub(crate) fn lam(i: u16, v: Result<Values, Values>) -> Line
    ensures { result ≡ made (lam_form i) v }
{
    v.map_or(
        Line::NoForm,
        |v| Line::TermLine(i, Term::Lam(v.number[0], v.number[1])),
    )
}

// `E,i,APP,f,a`
pub(crate) fn app(i: u16, v: Result<Values, Values>) -> Line
    ensures { result ≡ made (app_form i) v }
{
    v.map_or(
        Line::NoForm,
        |v| Line::TermLine(i, Term::App(v.number[0], v.number[1])),
    )
}

// `E,i,OP,o,l,r`
pub(crate) fn op(i: u16, v: Result<Values, Values>) -> Line
    ensures { result ≡ made (op_form i) v }
{
    v.map_or(
        Line::NoForm,
        |v| Line::TermLine(i, Term::Op(v.code[0], v.number[1], v.number[2])),
    )
}

// `E,i,VAR,p`
pub(crate) fn var(i: u16, v: Result<Values, Values>) -> Line
    ensures { result ≡ made (var_form i) v }
{
    v.map_or(Line::NoForm, |v| Line::TermLine(i, Term::Var(v.number[0])))
}

// `E,i,NUM,n`
pub(crate) fn num(i: u16, v: Result<Values, Values>) -> Line
    ensures { result ≡ made (num_form i) v }
{
    v.map_or(Line::NoForm, |v| Line::TermLine(i, Term::Num(v.literal)))
}

// `E,i,ENC,s,n`
pub(crate) fn enc(i: u16, v: Result<Values, Values>) -> Line
    ensures { result ≡ made (enc_form i) v }
{
    v.map_or(
        Line::NoForm,
        |v| Line::TermLine(i, Term::Enc(v.code[0], v.literal)),
    )
}
