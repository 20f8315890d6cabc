// The mappings and conversions by name.
#[derive(Clone, Copy)]
pub enum Call {
    ToPhysicalType,
    UnderlyingPhysicalType,
    ToStorage,
    ToStorageRecursive,
    InnerDtype,
    GetChild,
    IsNested,
    ContainsDictionary,
    FromIntegerType,
    FromPrimitiveType,
}

pub fn call_named(name: &[u8]) -> Option<Call> {
    if buffer::same(name, b"to_physical_type") {
        return Some(Call::ToPhysicalType);
    }
    if buffer::same(name, b"underlying_physical_type") {
        return Some(Call::UnderlyingPhysicalType);
    }
    if buffer::same(name, b"to_storage") {
        return Some(Call::ToStorage);
    }
    if buffer::same(name, b"to_storage_recursive") {
        return Some(Call::ToStorageRecursive);
    }
    if buffer::same(name, b"inner_dtype") {
        return Some(Call::InnerDtype);
    }
    if buffer::same(name, b"get_child") {
        return Some(Call::GetChild);
    }
    if buffer::same(name, b"is_nested") {
        return Some(Call::IsNested);
    }
    if buffer::same(name, b"contains_dictionary") {
        return Some(Call::ContainsDictionary);
    }
    conversion_named(name)
}

fn conversion_named(name: &[u8]) -> Option<Call> {
    if buffer::same(name, b"from_integer_type") {
        return Some(Call::FromIntegerType);
    }
    if buffer::same(name, b"from_primitive_type") {
        return Some(Call::FromPrimitiveType);
    }
    None
}

pub fn reads_sheet(call: Call) -> bool {
    match call {
        Call::FromIntegerType => false,
        Call::FromPrimitiveType => false,
        _ => true,
    }
}

pub fn takes_index(call: Call) -> bool {
    match call {
        Call::GetChild => true,
        Call::FromIntegerType => true,
        Call::FromPrimitiveType => true,
        _ => false,
    }
}
