//! The macro `value!`, which makes a `Value` from JSON with expressions in it.

/// Makes a `Value`, as serde_json's `json!` does: `value!(in alloc; {"id": id, "tags": ["a", "b"], "note": null})?`.
/// Returns a `miniserde::Result`, whose only error is `Memory`; after an error no further expression is evaluated. An
/// expression has a type that implements `IntoValue`. A name is a text, or an expression in parentheses; of equal
/// names the last counts. One call has at most about 60 names and items; make a larger value by several functions.
#[macro_export]
macro_rules! value {
    (in $alloc:expr; $($json:tt)+) => {{
        let alloc = $alloc;
        let made: $crate::Result<$crate::json::Value> = 'made: {
            Ok($crate::value_of!(alloc 'made; $($json)+))
        };
        made
    }};
    ($($rest:tt)*) => {
        compile_error!("`value!` takes an allocator first: write `value!(in alloc; [1, 2])?`")
    };
}

/// Makes a `Value` for `value!`: `$alloc` is the allocator, and an error leaves the block `$out`.
#[macro_export]
macro_rules! value_of {
    // Does what `?` does, except that an error leaves the block `$out` and not the caller's function.
    (@try $out:lifetime $step:expr) => {
        match $step {
            Ok(done) => done,
            Err(error) => break $out Err(error),
        }
    };

    // Pushes the items to the array `$array`, one by one. An item of one token tree is made as `value!` itself makes
    // it; any other is an expression.
    (@items $alloc:ident $out:lifetime $array:ident) => {};
    (@items $alloc:ident $out:lifetime $array:ident $item:tt $(, $($rest:tt)*)?) => {
        let item = $crate::value_of!($alloc $out; $item);
        $crate::value_of!(@try $out $crate::json::Array::push(&mut $array, item));
        $crate::value_of!(@items $alloc $out $array $($($rest)*)?);
    };
    (@items $alloc:ident $out:lifetime $array:ident $item:expr $(, $($rest:tt)*)?) => {
        let item = $crate::value_of!($alloc $out; $item);
        $crate::value_of!(@try $out $crate::json::Array::push(&mut $array, item));
        $crate::value_of!(@items $alloc $out $array $($($rest)*)?);
    };

    // Puts the members into the object `$object`, one by one.
    (@members $alloc:ident $out:lifetime $object:ident) => {};
    (@members $alloc:ident $out:lifetime $object:ident $name:tt : $value:tt $(, $($rest:tt)*)?) => {
        let member = $crate::value_of!($alloc $out; $value);
        $crate::value_of!(@try $out $crate::json::Object::put(&mut $object, $alloc, $name, member));
        $crate::value_of!(@members $alloc $out $object $($($rest)*)?);
    };
    (@members $alloc:ident $out:lifetime $object:ident $name:tt : $value:expr $(, $($rest:tt)*)?) => {
        let member = $crate::value_of!($alloc $out; $value);
        $crate::value_of!(@try $out $crate::json::Object::put(&mut $object, $alloc, $name, member));
        $crate::value_of!(@members $alloc $out $object $($($rest)*)?);
    };

    // Makes the `Value` of `null`, of a list, of an object, or of an expression.
    ($alloc:ident $out:lifetime; null) => {
        $crate::json::value::null_value()
    };
    ($alloc:ident $out:lifetime; [$($items:tt)*]) => {{
        let mut array = $crate::json::Array::new($alloc);
        $crate::value_of!(@items $alloc $out array $($items)*);
        $crate::json::value::array_value(array)
    }};
    ($alloc:ident $out:lifetime; {$($members:tt)*}) => {{
        let mut object = $crate::json::Object::new($alloc);
        $crate::value_of!(@members $alloc $out object $($members)*);
        $crate::json::value::object_value(object)
    }};
    ($alloc:ident $out:lifetime; $value:expr) => {
        $crate::value_of!(@try $out $crate::json::value::IntoValue::into_value($value, $alloc))
    };
}
